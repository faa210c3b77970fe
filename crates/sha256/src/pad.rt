// The last one or two blocks: the rest of the message and the padding (FIPS 180-4, section 5.1.1).
ghost use Rattle.std.specs.Prelude.{◌≡◌, ◌+◌, ◌-◌, ◌/◌, ◌%◌, ◌<◌, ◌++◌, length, replicate};
ghost use Rattle.sha256.specs.Padding.{zero_bytes, padding, padded};
ghost use Rattle.sha256.specs.Sha256.{hash_after};

use super::compress::compress;
use super::state::State;

// The bytes of s, and zeros behind them.
fn zero_filled(s: &[u8]) -> [u8; 128]
    requires { length s.now < 64 }
    ensures { result ≡ s.now ++ replicate (128 - length s.now) 0 }
{
    let mut b = [0u8; 128];
    b[..s.len()].copy_from_slice(s);
    b
}

// The rest of a message of n bytes and its padding, which ends at end; zeros behind it.
fn padded_rest(rest: &[u8], n: usize, end: usize) -> [u8; 128]
    requires { (length rest.now ≡ n % 64) × (n < 65536) × (end ≡ n % 64 + 9 + zero_bytes n) }
    ensures { result ≡ (rest.now ++ padding n) ++ replicate (128 - end) 0 }
{
    let mut b = zero_filled(rest);
    let bits = 8 * n;
    b[rest.len()] = 128;
    b[end - 8..end].copy_from_slice(&bits.to_be_bytes());
    b
}

// The hash value after all blocks, from that after the message's whole blocks.
pub fn last_blocks(s: State, message: &[u8]) -> State
    requires { (length message.now < 65536) × (s ≡ hash_after message.now (length message.now / 64)) }
    ensures { result ≡ hash_after (padded message.now) (length (padded message.now) / 64) }
{
    let n = message.len();
    let at = 64 * (n / 64);
    let rest = &message[at..];
    if n % 64 < 56 {
        let b = padded_rest(rest, n, 64);
        compress(s, &b[..64])
    } else {
        let b = padded_rest(rest, n, 128);
        let r = compress(s, &b[..64]);
        compress(r, &b[64..])
    }
}
