// What is seen for one packet from the first n entries, at its clock.
ghost use Rattle.judging.specs.Seen.{arrival_of, Sees, Fits};
ghost use Rattle.opinion_log.specs.Steps.{CanJudge, view_by};

use super::hashes::until;
use super::links::link_of;
use super::locals::is_local;
use super::outcomes::Outcome;
use super::paths::path_of;
use super::places::{LIST_LIMIT, LOG_SIZE};
use super::ports::ports_at;
use super::rates::rate_at;
use super::records::{live_link, live_path, live_return};
use super::returns::return_of;
use judging::{Arrived, Seen, link_key};

pub fn seen(
    log: &[u8; LOG_SIZE],
    outcomes: &[Outcome; LIST_LIMIT],
    n: usize,
    packet: &[u8],
    arrived: Arrived,
) -> Seen
    requires { CanJudge log.now outcomes.now n packet.now }
    ensures { Sees result (view_by log.now n arrived) (arrival_of packet.now arrived) × Fits result }
{
    let destination = packet::parts_of(packet).destination;
    let clock = arrived.clock;
    let path = path_of(log, outcomes, n, destination);
    let link = link_of(log, outcomes, n, link_key(packet));
    let back = return_of(log, outcomes, n, destination);
    Seen {
        own: octets::address_at(log, 0),
        rate: rate_at(log, n),
        ports: ports_at(log, n),
        local: is_local(log, n, destination),
        remembered: clock < until(log, outcomes, n, packet::hash_of(packet)),
        path: live_path(path, clock),
        link: live_link(link, clock),
        back: live_return(back, clock),
    }
}
