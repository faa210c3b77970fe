// Recordings: reading and writing them, and their replay entry by entry.
ghost use Rattle.std.specs.Prelude.{◌≡◌};
ghost use Rattle.recording.specs.Shape.{count_of};
ghost use Rattle.recording.specs.Reader.{file_refusal, body_of};
ghost use Rattle.recording.specs.Writer.{writing};
ghost use Rattle.replaying.specs.Promise.{step_on};
ghost use Rattle.crossing.specs.Recordings.{entry_refusal, entry_after, Records, Replays};
ghost use Rattle.crossing.specs.Tallies.{tally_in};
ghost use Rattle.crossing.specs.Packets.{payload_place};

use super::announces::written_number;
use super::packets::haskumye_payload_start;
use crossing::{answer_number, entry_numbers, tally_in, tally_numbers};
use numbers::{Refusal, refused_number};

// The refusal of a recording, 20, 21, 22 or 23, or 0.
#[unsafe(no_mangle)]
pub extern "C" fn haskumye_check_recording(file: &[u8]) -> u8
    ensures { result ≡ file_refusal file.now }
{
    refused_number(recording::check(file))
}

// How many entries a recording says it has, 0 where it is too short to say.
#[unsafe(no_mangle)]
pub extern "C" fn haskumye_recording_count(file: &[u8]) -> usize
    ensures { result ≡ count_of file.now }
{
    recording::count(file)
}

// Entry `index` of a recording: clock, port, signature word, and its body's start and length in the file. Refusal 22,
// and the numbers as they were, where it isn't there.
#[unsafe(no_mangle)]
pub extern "C" fn haskumye_recording_entry(file: &[u8], index: u64, entry: &mut [u64; 5]) -> u8
    ensures { (result ≡ entry_refusal file.now index)
        × (entry.new ≡ entry_after file.now index entry.old) }
{
    let Some(head) = recording::entry(file, index as usize) else {
        return Refusal::FilePlace.number();
    };
    *entry = entry_numbers(head);
    0
}

// Writes the recording of these entries and bodies at the start of the room, which a refusal leaves as it was.
// One number: in its low 16 bits the refusal or 0, in those above the file's length.
#[unsafe(no_mangle)]
pub extern "C" fn haskumye_write_recording(entries: &[u8], bodies: &[u8], room: &mut [u8]) -> u32
    ensures { Records (writing entries.now bodies.now room.old)
        result room.new }
{
    written_number(recording::write(entries, bodies, room))
}

// The packet call of entry `index` of a recording, with an output of its own: its answer's number, as
// `haskumye_packet` has it. Tables and tally are changed where they lie, and the entry's line stands at the start of
// 160 bytes with zeros behind it. Refusal 22, and nothing is changed, where the entry isn't there.
#[unsafe(no_mangle)]
pub extern "C" fn haskumye_replay_entry(
    file: &[u8],
    index: u64,
    tables: &mut [u8],
    tally: &mut [u32; 6],
    line: &mut [u8; 160],
) -> u64
    ensures { Replays
        (step_on file.now index tables.old (tally_in tally.old))
        (payload_place (body_of file.now index)) line.old
        result tally.new tables.new line.new }
{
    let stepped = replaying::step(file, index as usize, tables, tally_in(*tally));
    if let Some(text) = stepped.line {
        let bytes = text.bytes;
        *line = bytes;
    }
    *tally = tally_numbers(stepped.tally);
    answer_number(
        stepped.answer,
        haskumye_payload_start(recording::body(file, index as usize)),
    )
}
