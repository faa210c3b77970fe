// Packet hash and link id.
ghost use Rattle.std.specs.Prelude.{◌≡◌, true, ◌∷◌, ◌+◌, ◌≤◌, length, take};
ghost use Rattle.sha256.specs.Sha256.{sha256_of, longest_message};
ghost use Rattle.packet.specs.Places.{address_width, digest_width};
ghost use Rattle.packet.specs.Read.{longest_packet, reads};
ghost use Rattle.packet.specs.Hash.{packet_hash, link_id, hashed_as, packet_hash_answer, link_id_answer};

use super::places::{END_WIDTH, LINK_PART_WIDTH};
use super::reader::{check, from, part_of, payload_start};
use numbers::{LONGEST_PACKET, Refusal};

// SHA-256 of the first n bytes of a buffer.
pub fn hash_start(buffer: &[u8], n: usize) -> [u8; 32]
    requires { (n ≤ length buffer.now) × (n ≤ longest_message) }
    ensures { result ≡ sha256_of (take n buffer.now) }
{
    sha256::sha256(&buffer[..n]).unwrap()
}

// The first 16 bytes of a hash.
pub fn first_sixteen(hash: [u8; 32]) -> [u8; 16]
    ensures { result ≡ take address_width hash }
{
    octets::address_at(&hash, 0)
}

// SHA-256 of one byte and the bytes behind it.
fn hash_behind(first: u8, rest: &[u8]) -> [u8; 32]
    requires { 1 + length rest.now ≤ longest_packet }
    ensures { result ≡ sha256_of (first ∷ rest.now) }
{
    let mut buffer = [0u8; LONGEST_PACKET];
    octets::set_at(&mut buffer, 0, first);
    octets::copy_at(&mut buffer, 1, rest);
    hash_start(&buffer, 1 + rest.len())
}

// The packet hash of a packet that reads. From its destination on a packet is hashed as it lies.
pub fn hash_of(packet: &[u8]) -> [u8; 32]
    requires { reads longest_packet packet.now ≡ true }
    ensures { result ≡ packet_hash packet.now }
{
    let header = packet[0];
    let at = payload_start(header) - END_WIDTH;
    hash_behind(header % 16, from(packet, at))
}

// The link id of a packet that reads: of its payload the first 64 bytes, behind destination and context.
pub fn link_id_of(packet: &[u8]) -> [u8; 16]
    requires { reads longest_packet packet.now ≡ true }
    ensures { result ≡ link_id packet.now }
{
    let header = packet[0];
    let at = payload_start(header) - END_WIDTH;
    first_sixteen(hash_behind(header % 16, part_of(packet, at, LINK_PART_WIDTH)))
}

// The packet hash of any bytes: those that don't read are refused.
pub fn packet_hash(packet: &[u8]) -> Result<[u8; 32], Refusal>
    ensures { hashed_as digest_width result ≡ packet_hash_answer longest_packet packet.now }
{
    check(packet, LONGEST_PACKET)?;
    Ok(hash_of(packet))
}

// The link id of any bytes: those that don't read are refused.
pub fn link_id(packet: &[u8]) -> Result<[u8; 16], Refusal>
    ensures { hashed_as address_width result ≡ link_id_answer longest_packet packet.now }
{
    check(packet, LONGEST_PACKET)?;
    Ok(link_id_of(packet))
}
