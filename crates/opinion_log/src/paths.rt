// A destination's path: what its newest accepted announces made of it, live or not.
ghost use Rattle.std.specs.Prelude.{◌≡◌, ◌+◌, ◌<◌, IfSome};
ghost use Rattle.numbers.specs.Numbers.{port_count};
ghost use Rattle.history.specs.Opinion.{list_limit};
ghost use Rattle.opinion_log.specs.Log.{entry_of, entry_bytes, known_in};
ghost use Rattle.opinion_log.specs.Steps.{effect_of, CanAsk, PathKnown};

use super::log::{Entry, entry_at};
use super::outcomes::{Effect, Outcome};
use super::places::{LIST_LIMIT, LOG_SIZE};
use super::ports::{image_of, port_at};
use super::rates::rate_at;
use super::records::live_path;
use judging::{SeenPath, announced_path, limited_path};
use notes::Note;

// Brings the path past one more entry, of this effect. It writes only where the entry changes the path: with a record
// handed over by value at each entry, 64 blobs and all, the walk over a log of marks took up to twice as long.
fn path_after(
    log: &[u8; LOG_SIZE],
    i: usize,
    effect: Effect,
    destination: [u8; 16],
    path: &mut Option<SeenPath>,
)
    requires { (i < list_limit) × (effect ≡ effect_of (entry_of (entry_bytes log.now i)) (known_in log.now i))
        × PathKnown log.now i destination path.old }
    ensures { PathKnown log.now (i + 1) destination path.new }
{
    match entry_at(log, i) {
        Entry::Came(packet, arrived) if packet::parts_of(packet).destination == destination => {
            match effect {
                Effect::AnnouncesPath => {
                    let rate = rate_at(log, i);
                    let mode = port_at(log, i, usize::from(arrived.port)).mode;
                    let live = live_path(*path, arrived.clock);
                    *path = Some(announced_path(rate, mode, live, packet, arrived));
                }
                Effect::LimitsPath => {
                    let rate = rate_at(log, i);
                    *path = path.map(|record| limited_path(rate, record, arrived.clock));
                }
                _ => {}
            }
        }
        Entry::Marks(marked, _) if marked == destination => {
            if let Some(record) = path {
                record.notes = notes::noted(record.notes, Note::Unresponsive);
            }
        }
        Entry::Renumbers(images) => {
            if let Some(record) = path {
                record.port = image_of(images, record.port);
            }
        }
        _ => {}
    }
}

// After the first n entries.
pub fn path_of(
    log: &[u8; LOG_SIZE],
    outcomes: &[Outcome; LIST_LIMIT],
    n: usize,
    destination: [u8; 16],
) -> Option<SeenPath>
    requires { CanAsk log.now outcomes.now n }
    ensures { PathKnown log.now n destination result × IfSome result (λ s. s.port < port_count) }
{
    let mut path = None;
    for i in 0..n {
        path_after(log, i, outcomes[i].effect, destination, &mut path);
    }
    path
}
