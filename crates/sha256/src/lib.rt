// SHA-256 of FIPS 180-4, of messages up to 65,535 bytes.
// Entry point: sha256. The other functions are private helpers.
#![tactic(auto)]

mod compress;
mod pad;
mod schedule;
mod state;
mod words;

ghost use Rattle.std.specs.Prelude.{◌≡◌, ◌/◌, length};
ghost use Rattle.sha256.specs.Sha256.{hash_after, digest_as, answer};

use compress::compress;
use pad::last_blocks;
use state::{State, digest_bytes, initial_hash};

// The hash value after the message's whole blocks.
fn whole_blocks(message: &[u8]) -> State
    ensures { result ≡ hash_after message.now (length message.now / 64) }
{
    let mut s = initial_hash();
    for block in message.chunks_exact(64) {
        s = compress(s, block);
    }
    s
}

// The digest of a message of at most 65,535 bytes, none of a longer one.
pub fn sha256(message: &[u8]) -> Option<[u8; 32]>
    ensures { digest_as result ≡ answer message.now }
{
    if message.len() <= 65535 {
        let s = last_blocks(whole_blocks(message), message);
        Some(digest_bytes(s))
    } else {
        None
    }
}
