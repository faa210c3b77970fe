// Announces of the box's own addresses. Both calls return one number: in its low 16 bits the refusal or 0, in those
// above the length.
ghost use Rattle.std.specs.Prelude.{◌≡◌, ◌≤◌};
ghost use Rattle.numbers.specs.Refusals.{written_as};
ghost use Rattle.recording.specs.Format.{longest_file};
ghost use Rattle.announcing.specs.Announcing.{make_announce, signing, building};
ghost use Rattle.crossing.specs.Packets.{written_number, Writes};

use crossing::REFUSAL_SPAN;
use numbers::Refusal;

// What was written, by any writer, as one number of 32 bits.
pub fn written_number(written: Result<usize, Refusal>) -> u32
    requires { (written_as written).length ≤ longest_file }
    ensures { result ≡ written_number (written_as written) }
{
    match written {
        Ok(length) => (length as u32) * REFUSAL_SPAN,
        Err(refusal) => u32::from(refusal.number()),
    }
}

// Lays out the bytes that the host signs, at the start of the room, which a refusal leaves as it was. An empty ratchet
// is none.
#[unsafe(no_mangle)]
pub extern "C" fn haskumye_announce_signing_bytes(
    keys: &[u8],
    name_hash: &[u8],
    random: &[u8],
    clock: u64,
    ratchet: &[u8],
    app_data: &[u8],
    room: &mut [u8],
) -> u32
    ensures { Writes
        (signing (make_announce keys.now name_hash.now random.now clock
        ratchet.now app_data.now) room.old)
        result room.new }
{
    written_number(announcing::signing_bytes(
        keys, name_hash, random, clock, ratchet, app_data, room,
    ))
}

// Builds the announce with the host's signature, at the start of the room, which a refusal leaves as it was.
#[unsafe(no_mangle)]
pub extern "C" fn haskumye_build_announce(
    keys: &[u8],
    name_hash: &[u8],
    random: &[u8],
    clock: u64,
    ratchet: &[u8],
    app_data: &[u8],
    signature: &[u8],
    room: &mut [u8],
) -> u32
    ensures { Writes
        (building (make_announce keys.now name_hash.now random.now clock
        ratchet.now app_data.now) signature.now room.old)
        result room.new }
{
    written_number(announcing::build(
        keys, name_hash, random, clock, ratchet, app_data, signature, room,
    ))
}
