// Laying out the signing bytes, and building the announce.
ghost use Rattle.std.specs.Prelude.{◌≡◌, ◌++◌, ◌+◌, ◌≤◌, length};
ghost use Rattle.octets.specs.Part.{patch};
ghost use Rattle.numbers.specs.Refusals.{written_as};
ghost use Rattle.packet.specs.Places.{keys_width, name_hash_width, random_width, blob_end};
ghost use Rattle.announcing.specs.Announcing.{make_announce, destination, head_of, announce_with, announce_refusal, any_signature, signed_bytes, signing, building, Lays};
ghost use Rattle.announcing.specs.Steps.{fields};

use super::Announce;
use super::refusing::LEAST_LENGTH;
use numbers::{ADDRESS_WIDTH, Refusal};
use packet::Parts;
use packet::places::{
    BLOB_AT, BLOB_END, EMISSION_WIDTH, NAME_HASH_AT, RANDOM_WIDTH, SIGNATURE_WIDTH, TYPE_ONE_START,
};

// The announce's head: header 01, or 21 with a ratchet; hops and context 0.
fn head(destination: [u8; 16], ratchet: usize) -> Parts
    ensures { result ≡ head_of destination ratchet }
{
    let header = if ratchet == 0 { 0x01 } else { 0x21 };
    Parts {
        header,
        hops: 0,
        relay: [0; 16],
        destination,
        context: 0,
    }
}

impl Announce<'_> {
    // The destination that keys and name hash give.
    fn destination(&self) -> [u8; 16]
        requires { (length self.now.keys ≡ keys_width) × (length self.now.name_hash ≡ name_hash_width) }
        ensures { result ≡ destination self.now }
    {
        let mut start = [0u8; BLOB_AT];
        octets::copy_at(&mut start, 0, self.keys);
        octets::copy_at(&mut start, NAME_HASH_AT, self.name_hash);
        packet::announced_destination(&start)
    }

    // Writes keys, name hash, blob and ratchet from place at on.
    fn write_fields(&self, room: &mut [u8], at: usize)
        requires { (length self.now.keys ≡ keys_width) × (length self.now.name_hash ≡ name_hash_width)
            × (length self.now.random ≡ random_width)
            × (at + blob_end + length self.now.ratchet ≤ length room.old) }
        ensures { room.new ≡ patch room.old at (fields self.now.keys self.now.name_hash self.now.random self.now.clock self.now.ratchet) }
    {
        octets::copy_at(room, at, self.keys);
        octets::copy_at(room, at + NAME_HASH_AT, self.name_hash);
        let blob = at + BLOB_AT;
        octets::copy_at(room, blob, self.random);
        octets::write_number_at(room, blob + RANDOM_WIDTH, EMISSION_WIDTH, self.clock);
        octets::copy_at(room, at + BLOB_END, self.ratchet);
    }

    // Writes the signing bytes at the start of the room.
    fn write_signed(&self, room: &mut [u8])
        requires { announce_refusal self.now any_signature (length room.old) ≡ 0 }
        ensures { room.new ≡ patch room.old 0 (signed_bytes self.now) }
    {
        octets::copy_at(room, 0, &self.destination());
        self.write_fields(room, ADDRESS_WIDTH);
        octets::copy_at(
            room,
            ADDRESS_WIDTH + BLOB_END + self.ratchet.len(),
            self.app_data,
        );
    }

    // Writes the announce at the start of the room.
    fn write_announce(&self, signature: &[u8], room: &mut [u8])
        requires { announce_refusal self.now signature.now (length room.old) ≡ 0 }
        ensures { room.new ≡ patch room.old 0 (announce_with self.now signature.now) }
    {
        let parts = head(self.destination(), self.ratchet.len());
        packet::write_packet(parts, &[], room);
        self.write_fields(room, TYPE_ONE_START);
        let behind = TYPE_ONE_START + BLOB_END + self.ratchet.len();
        octets::copy_at(room, behind, signature);
        octets::copy_at(room, behind + SIGNATURE_WIDTH, self.app_data);
    }
}

// Lays out the bytes that the host signs, at the start of the room.
pub fn signing_bytes(
    keys: &[u8],
    name_hash: &[u8],
    random: &[u8],
    clock: u64,
    ratchet: &[u8],
    app_data: &[u8],
    room: &mut [u8],
) -> Result<usize, Refusal>
    ensures { Lays
        (signing (make_announce keys.now name_hash.now random.now clock
        ratchet.now app_data.now) room.old)
        (written_as result) room.new }
{
    let announce = Announce {
        keys,
        name_hash,
        random,
        clock,
        ratchet,
        app_data,
    };
    announce.check(SIGNATURE_WIDTH, room.len())?;
    announce.write_signed(room);
    Ok(ADDRESS_WIDTH + BLOB_END + ratchet.len() + app_data.len())
}

// Builds the announce with the host's signature, at the start of the room.
pub fn build(
    keys: &[u8],
    name_hash: &[u8],
    random: &[u8],
    clock: u64,
    ratchet: &[u8],
    app_data: &[u8],
    signature: &[u8],
    room: &mut [u8],
) -> Result<usize, Refusal>
    ensures { Lays
        (building (make_announce keys.now name_hash.now random.now clock
        ratchet.now app_data.now) signature.now room.old)
        (written_as result) room.new }
{
    let announce = Announce {
        keys,
        name_hash,
        random,
        clock,
        ratchet,
        app_data,
    };
    announce.check(signature.len(), room.len())?;
    announce.write_announce(signature, room);
    Ok(LEAST_LENGTH + ratchet.len() + app_data.len())
}
