// Tests 6 to 13, 15 and 16, on the way that the packet would follow.
ghost use Rattle.std.specs.Prelude.{◌≡◌, true, false};
ghost use Rattle.packet.specs.Read.{longest_packet, reads};
ghost use Rattle.rules.specs.Arrival.{Arrival, destination};
ghost use Rattle.rules.specs.Tests.{bad_form, follows_proved_link, already_known, wrong_side, not_signed};
ghost use Rattle.rules.specs.Tests.{is_replay, is_not_better, is_rate_limited, port_off, too_long_for_port};
ghost use Rattle.rules.specs.Ways.{way_on};
ghost use Rattle.rules.specs.Judging.{onward_plan};
ghost use Rattle.judging.specs.declared.Arrived.{Arrived};
ghost use Rattle.judging.specs.declared.Seen.{Seen};
ghost use Rattle.judging.specs.Seen.{arrival_of, path_record, Fits, way_of, plan_of, as_seen, on_seen_way};
ghost use Rattle.judging.specs.Steps.{CanTest, Tested, CanKnow, of_seen_path, last_plan, leaving_plan};

use super::blobs::revives;
use super::leaving::{leaving_length, leaving_port, port_at};
use super::sides::{from_answering_side, from_asking_side};
use super::ways::way_on;
use super::{Arrived, Planned, Seen, SeenPath, SeenWay};
use packet::places::HOPS_AT;
use rules::Reason;

// Whether the way is a link, and that is proved.
fn follows_proved_link(way: &SeenWay) -> bool
    ensures { (s : Seen) (a : Arrival) → result ≡ follows_proved_link (way_of s a way.now) }
{
    matches!(way, SeenWay::AlongLink(link) if link.proved)
}

// Test 7: link request whose id is live; link proof for a proved link.
fn already_known(seen: &Seen, packet: &[u8], arrived: Arrived, way: &SeenWay) -> bool
    requires { reads longest_packet packet.now ≡ true }
    ensures { result ≡ on_seen_way already_known seen.now packet.now arrived way.now }
{
    packet::is_link_request(packet[0]) && seen.link.is_some()
        || forms::is_link_proof(packet) && follows_proved_link(way)
}

// Test 8: a link packet from neither side, a link proof not from the answering side, an ordinary proof not by the
// record's leaving port.
fn wrong_side(seen: &Seen, packet: &[u8], arrived: Arrived, way: &SeenWay) -> bool
    requires { reads longest_packet packet.now ≡ true }
    ensures { result ≡ wrong_side (arrival_of packet.now arrived)
        (way_of seen.now (arrival_of packet.now arrived) way.now) }
{
    match way {
        SeenWay::AlongLink(link) => {
            let hops = packet[HOPS_AT];
            !from_answering_side(*link, arrived.port, hops)
                && (forms::is_link_proof(packet) || !from_asking_side(*link, arrived.port, hops))
        }
        SeenWay::ByReturn(back) => arrived.port != back.leaving,
        _ => false,
    }
}

// Test 9: signature word no, for announces and link proofs.
fn not_signed(packet: &[u8], arrived: Arrived) -> bool
    requires { reads longest_packet packet.now ≡ true }
    ensures { result ≡ not_signed (arrival_of packet.now arrived) }
{
    (packet::is_announce(packet[0]) || forms::is_link_proof(packet)) && !arrived.signed
}

// The path whose tests are made: an announce's, where its destination has one, unless it revives that.
fn tested(seen: &Seen, packet: &[u8], arrived: Arrived, way: &SeenWay) -> Option<SeenPath>
    requires { CanTest seen.now packet.now way.now }
    ensures { Tested seen.now packet.now arrived way.now result }
{
    let SeenWay::Everywhere = way else {
        return None;
    };
    let blob = packet::blob(packet::payload(packet));
    seen.path.filter(|path| !revives(path, blob))
}

// Test 10: the blob is stored.
fn replay(path: &SeenPath, packet: &[u8], arrived: Arrived) -> bool
    requires { CanKnow path.now packet.now }
    ensures { result ≡ of_seen_path is_replay path.now packet.now arrived }
{
    path.blobs.holds(packet::blob(packet::payload(packet)))
}

// Test 11: emission not above the greatest among stored blobs, and hops not below the stored hops.
fn not_better(path: &SeenPath, packet: &[u8], arrived: Arrived) -> bool
    requires { CanKnow path.now packet.now }
    ensures { result ≡ of_seen_path is_not_better path.now packet.now arrived }
{
    let emission = packet::emission(packet::blob(packet::payload(packet)));
    emission <= path.blobs.greatest_emission() && path.hops <= packet[HOPS_AT]
}

// Test 15: the rate rule.
fn rate_limited(seen: &Seen, path: &SeenPath, packet: &[u8], arrived: Arrived) -> bool
    requires { Fits seen.now × CanKnow path.now packet.now }
    ensures { result ≡ of_seen_path (as_seen (λ v a. is_rate_limited v) seen.now packet.now arrived) path.now packet.now arrived }
{
    rate::rule(seen.rate, arrived.clock, path.rate).dropped
}

// Test 12: the port to leave by is off. Announces skip this.
fn port_off(seen: &Seen, packet: &[u8], arrived: Arrived, way: &SeenWay) -> bool
    requires { reads longest_packet packet.now ≡ true }
    ensures { result ≡ on_seen_way port_off seen.now packet.now arrived way.now }
{
    let port = leaving_port(seen, packet, arrived, way);
    !packet::is_announce(packet[0]) && !port_at(seen.ports, port).on
}

// Test 16: too long for the port to leave by, as rewritten. Announces skip this too.
fn too_long_for_port(seen: &Seen, packet: &[u8], arrived: Arrived, way: &SeenWay) -> bool
    requires { reads longest_packet packet.now ≡ true }
    ensures { result ≡ on_seen_way too_long_for_port seen.now packet.now arrived way.now }
{
    let port = leaving_port(seen, packet, arrived, way);
    let length = leaving_length(seen, packet, arrived, way);
    !packet::is_announce(packet[0]) && port_at(seen.ports, port).size < length
}

// Tests 12 and 16 of what leaves by one port. Test 13 has nothing to find: what is seen has room.
fn plan_leaving(seen: &Seen, packet: &[u8], arrived: Arrived, way: &SeenWay) -> Planned
    requires { reads longest_packet packet.now ≡ true }
    ensures { plan_of seen.now (arrival_of packet.now arrived) result
        ≡ on_seen_way leaving_plan seen.now packet.now arrived way.now }
{
    if port_off(seen, packet, arrived, way) {
        return Planned::Drop(Reason::PortOff);
    }
    if too_long_for_port(seen, packet, arrived, way) {
        return Planned::Drop(Reason::TooLongForPort);
    }
    Planned::Follow(*way)
}

// The tests of a known path, and those behind them.
fn plan_last(seen: &Seen, packet: &[u8], arrived: Arrived, way: &SeenWay) -> Planned
    requires { CanTest seen.now packet.now way.now }
    ensures { plan_of seen.now (arrival_of packet.now arrived) result
        ≡ on_seen_way last_plan seen.now packet.now arrived way.now }
{
    let Some(path) = tested(seen, packet, arrived, way) else {
        return plan_leaving(seen, packet, arrived, way);
    };
    if replay(&path, packet, arrived) {
        return Planned::Drop(Reason::Replay);
    }
    if not_better(&path, packet, arrived) {
        return Planned::Drop(Reason::NotBetter);
    }
    if rate_limited(seen, &path, packet, arrived) {
        return Planned::Drop(Reason::RateLimited);
    }
    plan_leaving(seen, packet, arrived, way)
}

// Tests 6 to 9, and those behind them.
pub fn plan_onward(seen: &Seen, packet: &[u8], arrived: Arrived) -> Planned
    requires { (reads longest_packet packet.now ≡ true) × Fits seen.now × (bad_form packet.now ≡ false) }
    ensures { plan_of seen.now (arrival_of packet.now arrived) result
        ≡ as_seen onward_plan seen.now packet.now arrived
        (as_seen way_on seen.now packet.now arrived) }
{
    let way = way_on(seen, packet, arrived);
    if let SeenWay::Blocked(why) = way {
        return Planned::Drop(Reason::NoWayOn(why));
    }
    if already_known(seen, packet, arrived, &way) {
        return Planned::Drop(Reason::AlreadyKnown);
    }
    if wrong_side(seen, packet, arrived, &way) {
        return Planned::Drop(Reason::WrongSide);
    }
    if not_signed(packet, arrived) {
        return Planned::Drop(Reason::NotSigned);
    }
    plan_last(seen, packet, arrived, &way)
}
