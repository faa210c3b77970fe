// What leaves, by the way that the packet follows.
ghost use Rattle.std.specs.Prelude.{◌≡◌, ◌≤◌, length};
ghost use Rattle.packet.specs.Read.{longest_packet};
ghost use Rattle.octets.specs.Choice.{◌then◌otherwise◌};
ghost use Rattle.octets.specs.Part.{patch};
ghost use Rattle.rules.specs.Answers.{port_set};
ghost use Rattle.rules.specs.Outgoing.{spread_packet, path_packet, carried_packet};
ghost use Rattle.rules.specs.Judging.{spread_verdict, leaves};
ghost use Rattle.rules.specs.declared.Verdict.TheVariants.{Forward};
ghost use Rattle.outgoing.specs.Leaving.{CanLeave};
ghost use Rattle.judging.specs.Seen.{arrival_of};
ghost use Rattle.judging.specs.Steps.{spreads_to, Sends};

use super::leaving::{leaving_port, port_at, spread_length};
use super::{Arrived, Seen, SeenPath, SeenPort, SeenWay};
use numbers::PORT_COUNT;
use packet::LONGEST_PACKET;
use rules::{Reason, Verdict};

const PORTS: u8 = PORT_COUNT as u8;

// All ports on but the arrival port that carry an announce of this length.
fn spread_ports(ports: [SeenPort; 16], arrival: u8, long: usize) -> u16
    ensures { result ≡ port_set (spreads_to ports arrival long) }
{
    let mut set: u16 = 0;
    for i in 0..PORTS {
        let port = port_at(ports, i);
        set = outgoing::with_spread_port(set, i, port.on, port.size, arrival, long);
    }
    set
}

// Spreads an announce to a set of ports, or keeps it: if the set is empty, or the result exceeds 500, the output stays.
fn spread(own: [u8; 16], ports: u16, packet: &[u8], output: &mut [u8]) -> Verdict
    requires { CanLeave packet.now × (longest_packet ≤ length output.old) }
    ensures { (result ≡ spread_verdict ports (spread_packet own packet.now))
        × (output.new ≡ (leaves result then patch output.old 0 (spread_packet own packet.now)
        otherwise output.old)) }
{
    if ports == 0 || outgoing::spread_length(packet) > LONGEST_PACKET {
        return Verdict::Kept;
    }
    let length = outgoing::spread(packet, own, output);
    Verdict::Spread { ports, length }
}

// Forwards by a path: rewritten for its next hop.
fn forward(path: SeenPath, packet: &[u8], output: &mut [u8]) -> Verdict
    requires { CanLeave packet.now × (longest_packet ≤ length output.old) }
    ensures { (result
        ≡ Forward path.port (length (path_packet path.hops path.next_hop packet.now)))
        × (output.new
        ≡ patch output.old 0 (path_packet path.hops path.next_hop packet.now)) }
{
    let length = outgoing::forward_by_path(packet, path.hops, path.next_hop, output);
    Verdict::Forward {
        port: path.port,
        length,
    }
}

// Forwards a link packet or a proof by a port: hops + 1 and otherwise unchanged.
fn carry(packet: &[u8], port: u8, output: &mut [u8]) -> Verdict
    requires { CanLeave packet.now × (longest_packet ≤ length output.old) }
    ensures { (result ≡ Forward port (length (carried_packet packet.now)))
        × (output.new ≡ patch output.old 0 (carried_packet packet.now)) }
{
    let length = outgoing::carry(packet, output);
    Verdict::Forward { port, length }
}

pub fn send(
    seen: &Seen,
    packet: &[u8],
    arrived: Arrived,
    way: &SeenWay,
    output: &mut [u8],
) -> Verdict
    requires { CanLeave packet.now × (longest_packet ≤ length output.old) }
    ensures { Sends seen.now (arrival_of packet.now arrived) way.now output.old
        result output.new }
{
    match way {
        SeenWay::Everywhere => {
            let set = spread_ports(seen.ports, arrived.port, spread_length(packet, seen.own));
            spread(seen.own, set, packet, output)
        }
        SeenWay::ByPath(path) => forward(*path, packet, output),
        SeenWay::AlongLink(_) | SeenWay::ByReturn(_) => {
            carry(packet, leaving_port(seen, packet, arrived, way), output)
        }
        SeenWay::Blocked(why) => Verdict::Drop(Reason::NoWayOn(*why)),
    }
}
