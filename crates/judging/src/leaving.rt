// The port to leave by, and the length of what would leave.
ghost use Rattle.std.specs.Prelude.{◌≡◌, true, length, get_or};
ghost use Rattle.packet.specs.Read.{longest_packet, reads};
ghost use Rattle.rules.specs.Tests.{leaving_port};
ghost use Rattle.rules.specs.Outgoing.{spread_packet, path_packet, outgoing as leaving_packet};
ghost use Rattle.judging.specs.Seen.{arrival_of, no_seen_port, way_of, on_seen_way};

use super::sides::from_answering_side;
use super::{Arrived, PORT_OFF, Seen, SeenPort, SeenWay};
use numbers::PORT_COUNT;
use packet::places::HOPS_AT;

// 16, as a byte: what leaves by no one port has this number, which no port has.
const NO_PORT: u8 = PORT_COUNT as u8;

// A port's settings: a number that no port has is off.
pub fn port_at(ports: [SeenPort; 16], port: u8) -> SeenPort
    ensures { result ≡ get_or ports port no_seen_port }
{
    ports.get(usize::from(port)).copied().unwrap_or(PORT_OFF)
}

// How long an announce is once spread.
pub fn spread_length(packet: &[u8], own: [u8; 16]) -> usize
    requires { reads longest_packet packet.now ≡ true }
    ensures { result ≡ length (spread_packet own packet.now) }
{
    outgoing::spread_length(packet)
}

// How long a packet is that leaves by a path.
fn path_length(packet: &[u8], hops: u8, next_hop: [u8; 16]) -> usize
    requires { reads longest_packet packet.now ≡ true }
    ensures { result ≡ length (path_packet hops next_hop packet.now) }
{
    outgoing::path_length(packet, hops)
}

// The path's, which may be the arrival port; from the answering side the asking port, else the answering port; the
// return record's arrival port.
pub fn leaving_port(seen: &Seen, packet: &[u8], arrived: Arrived, way: &SeenWay) -> u8
    requires { reads longest_packet packet.now ≡ true }
    ensures { result ≡ leaving_port (arrival_of packet.now arrived)
        (way_of seen.now (arrival_of packet.now arrived) way.now) }
{
    match way {
        SeenWay::ByPath(path) => path.port,
        SeenWay::AlongLink(link) => {
            if from_answering_side(*link, arrived.port, packet[HOPS_AT]) {
                return link.asking;
            }
            link.answering
        }
        SeenWay::ByReturn(back) => back.arrival,
        SeenWay::Everywhere | SeenWay::Blocked(_) => NO_PORT,
    }
}

pub fn leaving_length(seen: &Seen, packet: &[u8], arrived: Arrived, way: &SeenWay) -> usize
    requires { reads longest_packet packet.now ≡ true }
    ensures { result ≡ length (on_seen_way leaving_packet seen.now packet.now arrived way.now) }
{
    match way {
        SeenWay::Everywhere => spread_length(packet, seen.own),
        SeenWay::ByPath(path) => path_length(packet, path.hops, path.next_hop),
        SeenWay::AlongLink(_) | SeenWay::ByReturn(_) => packet.len(),
        SeenWay::Blocked(_) => 0,
    }
}
