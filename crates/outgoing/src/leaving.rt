// The packets that leave, written at the start of the output.
ghost use Rattle.std.specs.Prelude.{◌≡◌, ◌+◌, ◌≤◌, length};
ghost use Rattle.octets.specs.Part.{patch};
ghost use Rattle.packet.specs.Read.{longest_packet, payload_start, payload as payload_of};
ghost use Rattle.rules.specs.Outgoing.{spread_header, rewritten, spread_packet, path_packet, carried_packet};
ghost use Rattle.outgoing.specs.Leaving.{CanLeave, rewritten_parts, spread_length, path_length};

use packet::Parts;
use packet::places::{HOPS_AT, TYPE_ONE_START, TYPE_TWO_START};

// The header of a spread announce: bits 6 and 4 set, bit 5 and the low four as received.
pub fn spread_header(header: u8) -> u8
    ensures { result ≡ spread_header header }
{
    header & 0b0010_1111 | 0b0101_0000
}

// The parts of a packet under another header and relay address, hops + 1.
fn rewritten_parts(packet: &[u8], header: u8, relay: [u8; 16]) -> Parts
    requires { CanLeave packet.now }
    ensures { result ≡ rewritten_parts header relay packet.now }
{
    let parts = packet::parts_of(packet);
    Parts {
        header,
        hops: parts.hops + 1,
        relay,
        ..parts
    }
}

// Writes a packet under another header and relay address, hops + 1, and says how long it is.
fn rewrite(packet: &[u8], header: u8, relay: [u8; 16], output: &mut [u8]) -> usize
    requires { CanLeave packet.now
        × (payload_start header + length (payload_of packet.now) ≤ length output.old) }
    ensures { (result ≡ length (rewritten header relay packet.now))
        × (output.new ≡ patch output.old 0 (rewritten header relay packet.now)) }
{
    let parts = rewritten_parts(packet, header, relay);
    let body = packet::payload(packet);
    packet::write_packet(parts, body, output);
    packet::payload_start(header) + body.len()
}

// How long an announce is once spread.
pub fn spread_length(packet: &[u8]) -> usize
    ensures { result ≡ spread_length packet.now }
{
    TYPE_TWO_START + packet::payload(packet).len()
}

// Spreads an announce: the head, which is a packet without payload, and behind it, from byte 35 on, the payload.
pub fn spread(packet: &[u8], own: [u8; 16], output: &mut [u8]) -> usize
    requires { CanLeave packet.now × (spread_length packet.now ≤ length output.old) }
    ensures { (result ≡ length (spread_packet own packet.now))
        × (output.new ≡ patch output.old 0 (spread_packet own packet.now)) }
{
    let head = rewritten_parts(packet, spread_header(packet[0]), own);
    packet::write_packet(head, &packet[0..0], output);
    let body = packet::payload(packet);
    let end = TYPE_TWO_START + body.len();
    output[TYPE_TWO_START..end].copy_from_slice(body);
    end
}

// How long a packet is that leaves by a path.
pub fn path_length(packet: &[u8], stored_hops: u8) -> usize
    ensures { result ≡ path_length stored_hops packet.now }
{
    if stored_hops == 0 {
        return TYPE_ONE_START + packet::payload(packet).len();
    }
    packet.len()
}

// Forwards by a path. Stored hops 0: as type 1, header modulo 16. Otherwise type 2, header kept, relay address = next
// hop.
pub fn forward_by_path(
    packet: &[u8],
    stored_hops: u8,
    next_hop: [u8; 16],
    output: &mut [u8],
) -> usize
    requires { CanLeave packet.now × (longest_packet ≤ length output.old) }
    ensures { (result ≡ length (path_packet stored_hops next_hop packet.now))
        × (output.new
        ≡ patch output.old 0 (path_packet stored_hops next_hop packet.now)) }
{
    let header = packet[0];
    if stored_hops == 0 {
        return rewrite(packet, header % 16, [0u8; 16], output);
    }
    rewrite(packet, header, next_hop, output)
}

// Forwards a link packet or a proof: hops + 1 and otherwise unchanged.
pub fn carry(packet: &[u8], output: &mut [u8]) -> usize
    requires { CanLeave packet.now × (longest_packet ≤ length output.old) }
    ensures { (result ≡ length (carried_packet packet.now))
        × (output.new ≡ patch output.old 0 (carried_packet packet.now)) }
{
    octets::copy_at(output, 0, packet);
    octets::set_at(output, HOPS_AT, packet[HOPS_AT] + 1);
    packet.len()
}
