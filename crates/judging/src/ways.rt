// The way on, or why there is none: test 6.
ghost use Rattle.std.specs.Prelude.{◌≡◌, true};
ghost use Rattle.packet.specs.Read.{longest_packet, reads};
ghost use Rattle.rules.specs.Relay.{empty};
ghost use Rattle.rules.specs.Arrival.{Arrival, destination};
ghost use Rattle.rules.specs.Ways.{link_way, return_way, path_way, way_on};
ghost use Rattle.judging.specs.declared.Seen.{Seen};
ghost use Rattle.judging.specs.Seen.{as_seen, arrival_of, link_of, return_of, path_of, way_of};

use super::{Arrived, Seen, SeenPath, SeenReturn, SeenWay};
use rules::{Blocked, Link};

// For kind link: no live link, or an unproved one, except for a link proof.
fn link_way(link: Option<Link>, link_proof: bool) -> SeenWay
    ensures { (s : Seen) (a : Arrival) → way_of s a result ≡ link_way link_proof (link_of link) }
{
    match link {
        None => SeenWay::Blocked(Blocked::NoLink),
        Some(link) if link.proved || link_proof => SeenWay::AlongLink(link),
        Some(_) => SeenWay::Blocked(Blocked::NotProved),
    }
}

// For an ordinary proof: no live return record.
fn return_way(back: Option<SeenReturn>) -> SeenWay
    ensures { (s : Seen) (a : Arrival) → way_of s a result ≡ return_way (return_of (destination a) back) }
{
    match back {
        None => SeenWay::Blocked(Blocked::NoReturn),
        Some(back) => SeenWay::ByReturn(back),
    }
}

// For data and link requests of type 2: no live path.
fn path_way(path: Option<SeenPath>) -> SeenWay
    ensures { (s : Seen) (a : Arrival) → way_of s a result ≡ path_way (path_of (destination a) path) empty }
{
    match path {
        None => SeenWay::Blocked(Blocked::NoPath),
        Some(path) => SeenWay::ByPath(path),
    }
}

pub fn way_on(seen: &Seen, packet: &[u8], arrived: Arrived) -> SeenWay
    requires { reads longest_packet packet.now ≡ true }
    ensures { way_of seen.now (arrival_of packet.now arrived) result
        ≡ as_seen way_on seen.now packet.now arrived }
{
    let header = packet[0];
    if packet::is_announce(header) {
        return SeenWay::Everywhere;
    }
    if packet::of_kind_link(header) {
        return link_way(seen.link, forms::is_link_proof(packet));
    }
    if packet::is_proof(header) {
        return return_way(seen.back);
    }
    if !packet::type_two(header) {
        return SeenWay::Blocked(Blocked::NotAsking);
    }
    path_way(seen.path)
}
