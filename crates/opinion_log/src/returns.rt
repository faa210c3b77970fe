// A return record: made by the newest data with its key that was forwarded, and emptied by the proof that went back.
ghost use Rattle.std.specs.Prelude.{◌≡◌, ◌+◌, ◌<◌, IfSome};
ghost use Rattle.numbers.specs.Numbers.{port_count};
ghost use Rattle.opinion_log.specs.Log.{known_in};
ghost use Rattle.opinion_log.specs.Steps.{CanAsk};
ghost use Rattle.judging.specs.Seen.{return_of};

use super::log::{Entry, entry_at};
use super::outcomes::{Effect, Outcome};
use super::paths::path_of;
use super::places::{LIST_LIMIT, LOG_SIZE};
use super::ports::image_of;
use judging::{SeenReturn, return_key, return_record};

// After one more entry.
fn return_after(
    log: &[u8; LOG_SIZE],
    outcomes: &[Outcome; LIST_LIMIT],
    i: usize,
    key: [u8; 16],
    before: Option<SeenReturn>,
) -> Option<SeenReturn>
    requires { CanAsk log.now outcomes.now (i + 1) × (return_of key before ≡ (known_in log.now i).return key) }
    ensures { return_of key result ≡ (known_in log.now (i + 1)).return key }
{
    match entry_at(log, i) {
        Entry::Came(packet, arrived) => match outcomes[i].effect {
            Effect::LeavesReturn if return_key(packet) == key => {
                let path = path_of(log, outcomes, i, packet::parts_of(packet).destination);
                path.map(|path| return_record(path, arrived))
            }
            Effect::EmptiesReturn if packet::parts_of(packet).destination == key => None,
            _ => before,
        },
        Entry::Renumbers(images) => before.map(|back| SeenReturn {
            arrival: image_of(images, back.arrival),
            leaving: image_of(images, back.leaving),
            ..back
        }),
        _ => before,
    }
}

// After the first n entries.
pub fn return_of(
    log: &[u8; LOG_SIZE],
    outcomes: &[Outcome; LIST_LIMIT],
    n: usize,
    key: [u8; 16],
) -> Option<SeenReturn>
    requires { CanAsk log.now outcomes.now n }
    ensures { (return_of key result ≡ (known_in log.now n).return key)
        × IfSome result (λ s. (s.arrival < port_count) × (s.leaving < port_count)) }
{
    let mut back = None;
    for i in 0..n {
        back = return_after(log, outcomes, i, key, back);
    }
    back
}
