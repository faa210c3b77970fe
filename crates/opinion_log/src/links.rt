// A link: made by the newest link request with its id that was forwarded, and renewed by each packet carried since.
ghost use Rattle.std.specs.Prelude.{◌≡◌, ◌+◌, ◌<◌, IfSome};
ghost use Rattle.numbers.specs.Numbers.{port_count};
ghost use Rattle.history.specs.Opinion.{list_limit};
ghost use Rattle.opinion_log.specs.Log.{known_in};
ghost use Rattle.opinion_log.specs.Steps.{CanAsk};
ghost use Rattle.judging.specs.Seen.{link_of};

use super::log::{Entry, entry_at};
use super::outcomes::{Effect, Outcome};
use super::paths::path_of;
use super::places::{LIST_LIMIT, LOG_SIZE};
use super::ports::image_of;
use judging::{link_record, renewed_link};
use rules::Link;

// After one more entry.
fn link_after(
    log: &[u8; LOG_SIZE],
    outcomes: &[Outcome; LIST_LIMIT],
    i: usize,
    id: [u8; 16],
    before: Option<Link>,
) -> Option<Link>
    requires { CanAsk log.now outcomes.now (i + 1) × (link_of before ≡ (known_in log.now i).link id) }
    ensures { link_of result ≡ (known_in log.now (i + 1)).link id }
{
    match entry_at(log, i) {
        Entry::Came(packet, arrived) => match outcomes[i].effect {
            Effect::LeavesLink if packet::link_id_of(packet) == id => {
                let path = path_of(log, outcomes, i, packet::parts_of(packet).destination);
                path.map(|path| link_record(path, packet, arrived))
            }
            Effect::RenewsLink if packet::parts_of(packet).destination == id => {
                before.map(|link| renewed_link(link, packet, arrived))
            }
            _ => before,
        },
        Entry::Renumbers(images) => before.map(|link| Link {
            asking: image_of(images, link.asking),
            answering: image_of(images, link.answering),
            ..link
        }),
        _ => before,
    }
}

// After the first n entries.
pub fn link_of(
    log: &[u8; LOG_SIZE],
    outcomes: &[Outcome; LIST_LIMIT],
    n: usize,
    id: [u8; 16],
) -> Option<Link>
    requires { CanAsk log.now outcomes.now n }
    ensures { (link_of result ≡ (known_in log.now n).link id)
        × IfSome result (λ s. (s.asking < port_count) × (s.answering < port_count)) }
{
    let mut link = None;
    for i in 0..n {
        link = link_after(log, outcomes, i, id, link);
    }
    link
}
