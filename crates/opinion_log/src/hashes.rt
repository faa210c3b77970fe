// The remembered hashes.
ghost use Rattle.std.specs.Prelude.{◌≡◌, ◌≤◌};
ghost use Rattle.history.specs.Known.{Known};
ghost use Rattle.history.specs.After.{after};
ghost use Rattle.history.specs.Opinion.{list_limit};
ghost use Rattle.opinion_log.specs.Log.{known_in};
ghost use Rattle.opinion_log.specs.Steps.{call_of, Fine, keeps_hash, KeptOf};

use super::log::{Entry, entry_at};
use super::outcomes::Outcome;
use super::places::{LIST_LIMIT, LOG_SIZE};
use numbers::HASH_LIFETIME;

// Until when a hash is remembered after one more entry, whose own hash may be kept: 300 s from it.
fn until_after(call: Entry, kept: bool, hash: [u8; 32], before: u64) -> u64
    requires { Fine call }
    ensures { (k : Known) → kept ≡ keeps_hash (call_of call.entry) k → k.until hash ≡ before
        → (after (call_of call.entry) k).until hash ≡ result }
{
    match call {
        Entry::Came(packet, arrived) if kept && packet::hash_of(packet) == hash => {
            arrived.clock + HASH_LIFETIME
        }
        _ => before,
    }
}

// .. and after the first n entries.
pub fn until(
    log: &[u8; LOG_SIZE],
    outcomes: &[Outcome; LIST_LIMIT],
    n: usize,
    hash: [u8; 32],
) -> u64
    requires { (n ≤ list_limit) × KeptOf log.now outcomes.now n }
    ensures { result ≡ (known_in log.now n).until hash }
{
    let mut time = 0;
    for i in 0..n {
        time = until_after(entry_at(log, i), outcomes[i].kept, hash, time);
    }
    time
}
