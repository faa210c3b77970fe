// The fields of an announce's payload.
ghost use Rattle.std.specs.Prelude.{◌≡◌, ◌≤◌, length};
ghost use Rattle.packet.specs.Places.{blob_end};
ghost use Rattle.packet.specs.Announce.{keys_of, name_hash_of, blob_of, emission_of, least_announce, identity_hash, announced_destination};

use super::hash::{first_sixteen, hash_start};
use super::header::context_flag;
use super::places::{
    BLOB_AT, BLOB_END, EMISSION_WIDTH, KEYS_WIDTH, LEAST_ANNOUNCE, LEAST_ANNOUNCE_WITH_RATCHET,
    NAME_HASH_AT, NAME_HASH_WIDTH, RANDOM_WIDTH,
};
use super::reader::part_of;
use numbers::ADDRESS_WIDTH;

// The key bytes, a part of the payload.
pub fn keys(body: &[u8]) -> &[u8]
    ensures { result.now ≡ keys_of body.now }
{
    part_of(body, 0, KEYS_WIDTH)
}

// The name hash, a part of the payload.
pub fn name_hash(body: &[u8]) -> &[u8]
    ensures { result.now ≡ name_hash_of body.now }
{
    part_of(body, NAME_HASH_AT, NAME_HASH_WIDTH)
}

// The blob, by value: what a path stores.
pub fn blob(body: &[u8]) -> [u8; 10]
    requires { blob_end ≤ length body.now }
    ensures { result ≡ blob_of body.now }
{
    let mut r = [0u8; 10];
    r.copy_from_slice(&body[BLOB_AT..BLOB_END]);
    r
}

// The emission time of a blob.
pub fn emission(blob: [u8; 10]) -> u64
    ensures { result ≡ emission_of blob }
{
    octets::number_at(&blob, RANDOM_WIDTH, EMISSION_WIDTH)
}

// The least payload of an announce.
pub fn least_announce(header: u8) -> usize
    ensures { result ≡ least_announce header }
{
    if context_flag(header) {
        return LEAST_ANNOUNCE_WITH_RATCHET;
    }
    LEAST_ANNOUNCE
}

fn identity_hash(body: &[u8]) -> [u8; 16]
    ensures { result ≡ identity_hash body.now }
{
    let k = keys(body);
    first_sixteen(hash_start(k, k.len()))
}

// The destination that the keys and the name hash of an announce give.
pub fn announced_destination(body: &[u8]) -> [u8; 16]
    ensures { result ≡ announced_destination body.now }
{
    let name = name_hash(body);
    let n = name.len();
    let identity = identity_hash(body);
    let mut buffer = [0u8; NAME_HASH_WIDTH + ADDRESS_WIDTH];
    octets::copy_at(&mut buffer, 0, name);
    octets::copy_at(&mut buffer, n, &identity);
    first_sixteen(hash_start(&buffer, n + ADDRESS_WIDTH))
}
