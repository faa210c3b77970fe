// The packet layout of document 01: reading, writing, packet hash, link id and announce fields.
// Entry points: read, check, is_size, payload, payload_start, write, packet_hash, link_id,
// announced_destination, least_announce, emission, and the header's bits. parts_of, type_two_parts, hash_of,
// link_id_of, blob and write_packet are helpers: the caller shows what they require.
#![tactic(auto)]

mod announce;
mod hash;
mod header;
pub mod places;
mod reader;
mod writer;

pub use announce::{announced_destination, blob, emission, least_announce};
pub use hash::{hash_of, link_id, link_id_of, packet_hash};
pub use header::{
    destination_kind, is_announce, is_data, is_link_request, is_proof, of_kind_link,
    of_kind_single, packet_kind, transport, type_two,
};
pub use numbers::{LEAST_OUTPUT, LONGEST_PACKET};
pub use reader::{check, is_size, parts_of, payload, payload_start, read, type_two_parts};
pub use writer::{write, write_packet};

// What the bytes of a packet before its payload say. Type 1: the relay address is zeros.
#[derive(Clone, Copy)]
pub struct Parts {
    pub header: u8,
    pub hops: u8,
    pub relay: [u8; 16],
    pub destination: [u8; 16],
    pub context: u8,
}
