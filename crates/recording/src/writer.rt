// Writing a recording.
ghost use Rattle.std.specs.Prelude.{◌≡◌, ◌+◌, ◌≤◌, ◌<◌, length};
ghost use Rattle.octets.specs.Listed.{first_of};
ghost use Rattle.octets.specs.Part.{patch};
ghost use Rattle.numbers.specs.Refusals.{refused_number, written_as};
ghost use Rattle.recording.specs.Shape.{contents_start, count_limit, entry_place};
ghost use Rattle.recording.specs.Format.{longest_file, head_width, file_of};
ghost use Rattle.recording.specs.Writer.{given_count, given_word, given_clock, given_length, given_start, given_entries, writing_refusal, writing};
ghost use Rattle.recording.specs.Steps.{head_rows, length_rows, start_bytes, copied_item, copied_items};

use super::places::{
    COUNT_AT, COUNT_WIDTH, EDITION, GIVEN_HEAD_AT, GIVEN_LENGTH_AT, GIVEN_WIDTH, GIVEN_WORD_AT,
    KIND, LENGTH_AT, LENGTH_WIDTH, LONGEST_FILE, MOST_ENTRIES, OFFSET_AT, OFFSET_WIDTH,
};
use super::reader::entry_place;
use numbers::{CLOCK_LIMIT, Refusal};

// How many whole entries are given.
fn given_count(entries: &[u8]) -> usize
    ensures { result ≡ given_count entries.now }
{
    entries.len() / GIVEN_WIDTH
}

fn given_word(entries: &[u8], i: usize) -> u8
    requires { i < given_count entries.now }
    ensures { result ≡ given_word entries.now i }
{
    entries[GIVEN_WIDTH * i + GIVEN_WORD_AT]
}

fn given_clock(entries: &[u8], i: usize) -> u64
    requires { i < given_count entries.now }
    ensures { result ≡ given_clock entries.now i }
{
    octets::number_of_8_at(entries, GIVEN_WIDTH * i)
}

fn given_length(entries: &[u8], i: usize) -> usize
    requires { i < given_count entries.now }
    ensures { result ≡ given_length entries.now i }
{
    octets::number_at(entries, GIVEN_WIDTH * i + GIVEN_LENGTH_AT, LENGTH_WIDTH) as usize
}

// Refusals 23 and 5, over all entries that are given. An OR over numbers is under a power of two where each of them is.
fn check_heads(entries: &[u8]) -> Result<(), Refusal>
    ensures { refused_number result ≡ first_of (head_rows entries.now) 0 }
{
    let mut words: u8 = 0;
    let mut clocks: u64 = 0;
    for i in 0..given_count(entries) {
        words |= given_word(entries, i);
        clocks |= given_clock(entries, i);
    }
    if words > 1 {
        return Err(Refusal::SignatureWord);
    }
    if clocks >= CLOCK_LIMIT {
        return Err(Refusal::Clock);
    }
    Ok(())
}

// The sum of the lengths of n entries.
fn given_end(entries: &[u8], n: usize) -> usize
    requires { (n ≤ given_count entries.now) × (n < count_limit) }
    ensures { result ≡ given_start entries.now n }
{
    (0..n).map(|i| given_length(entries, i)).sum()
}

// Refusals 20 and 25. More entries than a file has room for are refused before their lengths are added up.
fn check_lengths(entries: &[u8], bodies: &[u8], room: usize) -> Result<(), Refusal>
    ensures { refused_number result ≡ first_of (length_rows entries.now bodies.now room) 0 }
{
    let n = given_count(entries);
    if entries.len() % GIVEN_WIDTH != 0
        || n > MOST_ENTRIES
        || given_end(entries, n) != bodies.len()
    {
        return Err(Refusal::FileLength);
    }
    let length = entry_place(n) + bodies.len();
    if length > LONGEST_FILE {
        return Err(Refusal::FileLength);
    }
    if room < length {
        return Err(Refusal::Room);
    }
    Ok(())
}

// Whether these may be written into room bytes, or why not.
fn check_writing(entries: &[u8], bodies: &[u8], room: usize) -> Result<(), Refusal>
    ensures { refused_number result ≡ writing_refusal entries.now bodies.now room }
{
    check_heads(entries)?;
    check_lengths(entries, bodies, room)
}

// Writes kind, edition and count.
fn write_start(n: usize, room: &mut [u8])
    requires { contents_start ≤ length room.old }
    ensures { room.new ≡ patch room.old 0 (start_bytes n) }
{
    octets::set_at(room, 0, KIND);
    octets::set_at(room, 1, EDITION);
    octets::write_number_at(room, COUNT_AT, COUNT_WIDTH, n as u64);
}

// Writes entry i into the contents. What stands there is given in the same bytes, but for the offset.
fn write_entry(entries: &[u8], i: usize, offset: usize, room: &mut [u8])
    requires { (i < given_count entries.now) × (i < count_limit)
        × (entry_place head_width (i + 1) ≤ length room.old) }
    ensures { room.new
        ≡ patch room.old (entry_place head_width i) (copied_item entries.now offset i) }
{
    let at = entry_place(i);
    let from = GIVEN_WIDTH * i;
    octets::copy_at(
        room,
        at,
        &entries[from + GIVEN_HEAD_AT..from + GIVEN_LENGTH_AT],
    );
    octets::write_number_at(room, at + OFFSET_AT, OFFSET_WIDTH, offset as u64);
    octets::copy_at(
        room,
        at + LENGTH_AT,
        &entries[from + GIVEN_LENGTH_AT..from + GIVEN_WIDTH],
    );
}

// Writes the contents of n entries, the first body at place at.
fn write_contents(entries: &[u8], n: usize, at: usize, room: &mut [u8])
    requires { (n ≤ given_count entries.now) × (n < count_limit) × (at ≤ longest_file)
        × (entry_place head_width n ≤ length room.old) }
    ensures { room.new
        ≡ patch room.old contents_start (copied_items entries.now at n) }
{
    let mut offset = at;
    for i in 0..n {
        write_entry(entries, i, offset, room);
        offset += given_length(entries, i);
    }
}

// Writes the file at the start of the room.
fn write_file(entries: &[u8], bodies: &[u8], room: &mut [u8])
    requires { writing_refusal entries.now bodies.now (length room.old) ≡ 0 }
    ensures { room.new
        ≡ patch room.old 0 (file_of (given_entries entries.now bodies.now)) }
{
    let n = given_count(entries);
    let at = entry_place(n);
    write_start(n, room);
    write_contents(entries, n, at, room);
    octets::copy_at(room, at, bodies);
}

// Writes the recording of these entries and bodies at the start of the room, and says how long it is.
pub fn write(entries: &[u8], bodies: &[u8], room: &mut [u8]) -> Result<usize, Refusal>
    ensures { (written_as result ≡ (writing entries.now bodies.now room.old).answer)
        × (room.new ≡ (writing entries.now bodies.now room.old).room) }
{
    check_writing(entries, bodies, room.len())?;
    write_file(entries, bodies, room);
    Ok(entry_place(given_count(entries)) + bodies.len())
}
