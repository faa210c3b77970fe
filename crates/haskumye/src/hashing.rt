// SHA-256.
ghost use Rattle.std.specs.Prelude.{◌≡◌};
ghost use Rattle.sha256.specs.Sha256.{answer};
ghost use Rattle.haskumye.specs.Packets.{digest_after};

use numbers::Refusal;

// The refusal number, 0 for none. The digest goes to out, which a refusal leaves as it was.
#[unsafe(no_mangle)]
pub extern "C" fn haskumye_sha256(message: &[u8], out: &mut [u8; 32]) -> u8
    ensures { (result ≡ (answer message.now).refusal)
        × (out.new ≡ digest_after message.now out.old) }
{
    let Some(digest) = sha256::sha256(message) else {
        return Refusal::TooLong.number();
    };
    *out = digest;
    0
}
