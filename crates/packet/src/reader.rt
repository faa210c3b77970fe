// Reading a packet: its head alone, never the payload.
ghost use Rattle.std.specs.Prelude.{◌≡◌, ◌≤◌, length, drop};
ghost use Rattle.octets.specs.Part.{part};
ghost use Rattle.numbers.specs.Numbers.{is_size};
ghost use Rattle.numbers.specs.Refusals.{refused_number};
ghost use Rattle.packet.specs.Places.{type_one_start, type_two_start};
ghost use Rattle.packet.specs.Read.{header_of, type_one_parts, type_two_parts, parts_of, payload_start, payload as payload_of, reading_refusal, read_as, reading};

use super::Parts;
use super::header::{access_code, type_two};
use super::places::{
    ADDRESS_AT, HOPS_AT, SECOND_ADDRESS_AT, TYPE_ONE_CONTEXT_AT, TYPE_ONE_START,
    TYPE_TWO_CONTEXT_AT, TYPE_TWO_START,
};
use numbers::{LEAST_SIZE, LONGEST_PACKET, Refusal};

// The header of a packet, 0 where it has no byte.
fn header_of(packet: &[u8]) -> u8
    ensures { result ≡ header_of packet.now }
{
    packet.first().copied().unwrap_or(0)
}

// Where the payload starts.
pub fn payload_start(header: u8) -> usize
    ensures { result ≡ payload_start header }
{
    if type_two(header) {
        return TYPE_TWO_START;
    }
    TYPE_ONE_START
}

// The bytes of s from place at on, none where s is shorter.
pub fn from(s: &[u8], at: usize) -> &[u8]
    ensures { result.now ≡ drop at s.now }
{
    &s[at.min(s.len())..]
}

// The n bytes of s from place at on, or those of them that s has.
pub fn part_of(s: &[u8], at: usize, n: usize) -> &[u8]
    ensures { result.now ≡ part s.now at n }
{
    let rest = from(s, at);
    &rest[..n.min(rest.len())]
}

// The payload: a part of the packet that was lent, not a copy.
pub fn payload(packet: &[u8]) -> &[u8]
    ensures { result.now ≡ payload_of packet.now }
{
    from(packet, payload_start(header_of(packet)))
}

// Whether a port may have this size.
pub fn is_size(size: usize) -> bool
    ensures { result ≡ is_size size }
{
    LEAST_SIZE <= size && size <= LONGEST_PACKET
}

// Whether a packet reads against a size, or why not.
pub fn check(packet: &[u8], size: usize) -> Result<(), Refusal>
    ensures { refused_number result ≡ reading_refusal size packet.now }
{
    if !is_size(size) {
        return Err(Refusal::Setting);
    }
    if packet.len() < TYPE_ONE_START {
        return Err(Refusal::TooShort);
    }
    if size < packet.len() {
        return Err(Refusal::TooLong);
    }
    let header = packet[0];
    if access_code(header) {
        return Err(Refusal::AccessCode);
    }
    if type_two(header) && packet.len() < TYPE_TWO_START {
        return Err(Refusal::TooShort);
    }
    Ok(())
}

fn type_one_parts(packet: &[u8]) -> Parts
    requires { type_one_start ≤ length packet.now }
    ensures { result ≡ type_one_parts packet.now }
{
    let destination = octets::address_at(packet, ADDRESS_AT);
    Parts {
        header: packet[0],
        hops: packet[HOPS_AT],
        relay: [0; 16],
        destination,
        context: packet[TYPE_ONE_CONTEXT_AT],
    }
}

// The parts at the places of type 2, whatever the header says.
pub fn type_two_parts(packet: &[u8]) -> Parts
    requires { type_two_start ≤ length packet.now }
    ensures { result ≡ type_two_parts packet.now }
{
    let relay = octets::address_at(packet, ADDRESS_AT);
    let destination = octets::address_at(packet, SECOND_ADDRESS_AT);
    Parts {
        header: packet[0],
        hops: packet[HOPS_AT],
        relay,
        destination,
        context: packet[TYPE_TWO_CONTEXT_AT],
    }
}

// The parts of a packet that is long enough to have them.
pub fn parts_of(packet: &[u8]) -> Parts
    requires { payload_start (header_of packet.now) ≤ length packet.now }
    ensures { result ≡ parts_of packet.now }
{
    if type_two(packet[0]) {
        return type_two_parts(packet);
    }
    type_one_parts(packet)
}

// Reads a packet against a size: the arrival port's, or 500.
pub fn read(packet: &[u8], size: usize) -> Result<Parts, Refusal>
    ensures { read_as result ≡ reading size packet.now }
{
    check(packet, size)?;
    Ok(parts_of(packet))
}
