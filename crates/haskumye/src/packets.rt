// Reading and writing packets, their hashes, and what an announce holds.
ghost use Rattle.std.specs.Prelude.{◌≡◌};
ghost use Rattle.packet.specs.Read.{longest_packet, reading};
ghost use Rattle.packet.specs.Write.{writing};
ghost use Rattle.packet.specs.Hash.{packet_hash_answer, link_id_answer};
ghost use Rattle.packet.specs.Announce.{announced_destination, least_announce, emission_of};
ghost use Rattle.line.specs.Line.{line_text};
ghost use Rattle.text.specs.Text.{text_of};
ghost use Rattle.crossing.specs.Packets.{parts_in, payload_place, Writes};
ghost use Rattle.haskumye.specs.Packets.{parts_after, hash_after, link_id_after};

use super::announces::written_number;
use crossing::parts_bytes;

// Reads a packet against a size: its refusal, 0 for none. Its parts go to the buffer, which a refusal leaves as it was.
#[unsafe(no_mangle)]
pub extern "C" fn haskumye_read(packet: &[u8], size: u64, parts: &mut [u8; 35]) -> u8
    ensures { (result ≡ (reading size packet.now).refusal)
        × (parts.new ≡ parts_after size packet.now parts.old) }
{
    match packet::read(packet, size as usize) {
        Ok(read) => {
            *parts = parts_bytes(read);
            0
        }
        Err(refusal) => refusal.number(),
    }
}

// Where the payload of a packet starts, at most its length.
#[unsafe(no_mangle)]
pub extern "C" fn haskumye_payload_start(packet: &[u8]) -> usize
    ensures { result ≡ payload_place packet.now }
{
    packet.len() - packet::payload(packet).len()
}

// Writes a packet at the start of the output, which a refusal leaves as it was.
// One number: in its low 16 bits the refusal or 0, in those above the length.
#[unsafe(no_mangle)]
pub extern "C" fn haskumye_write(parts: &[u8; 35], payload: &[u8], output: &mut [u8]) -> u32
    ensures { Writes (writing (parts_in parts.now) payload.now output.old)
        result output.new }
{
    written_number(packet::write(packet::type_two_parts(parts), payload, output))
}

// The packet hash: the refusal, 0 for none. A refusal leaves the buffer as it was.
#[unsafe(no_mangle)]
pub extern "C" fn haskumye_packet_hash(packet: &[u8], hash: &mut [u8; 32]) -> u8
    ensures { (result ≡ (packet_hash_answer longest_packet packet.now).refusal)
        × (hash.new ≡ hash_after packet.now hash.old) }
{
    match packet::packet_hash(packet) {
        Ok(bytes) => {
            *hash = bytes;
            0
        }
        Err(refusal) => refusal.number(),
    }
}

// The link id: the refusal, 0 for none. A refusal leaves the buffer as it was.
#[unsafe(no_mangle)]
pub extern "C" fn haskumye_link_id(packet: &[u8], id: &mut [u8; 16]) -> u8
    ensures { (result ≡ (link_id_answer longest_packet packet.now).refusal)
        × (id.new ≡ link_id_after packet.now id.old) }
{
    match packet::link_id(packet) {
        Ok(bytes) => {
            *id = bytes;
            0
        }
        Err(refusal) => refusal.number(),
    }
}

// The destination that the keys and the name hash of an announce's payload give.
#[unsafe(no_mangle)]
pub extern "C" fn haskumye_announced_destination(payload: &[u8], destination: &mut [u8; 16])
    ensures { destination.new ≡ announced_destination payload.now }
{
    *destination = packet::announced_destination(payload);
}

// The least payload of an announce of this header.
#[unsafe(no_mangle)]
pub extern "C" fn haskumye_least_announce(header: u8) -> usize
    ensures { result ≡ least_announce header }
{
    packet::least_announce(header)
}

// The emission time of an announce's blob.
#[unsafe(no_mangle)]
pub extern "C" fn haskumye_emission(blob: &[u8; 10]) -> u64
    ensures { result ≡ emission_of blob.now }
{
    packet::emission(*blob)
}

// The showing program's line of a packet: its length, and the text at the start of the buffer with zeros behind it.
#[unsafe(no_mangle)]
pub extern "C" fn haskumye_line(packet: &[u8], text: &mut [u8; 160]) -> usize
    ensures { (result ≡ (text_of (line_text packet.now)).length)
        × (text.new ≡ (text_of (line_text packet.now)).bytes) }
{
    let line = line::line_of(packet);
    let bytes = line.bytes;
    *text = bytes;
    line.length
}
