// Saving a relay.
ghost use Rattle.std.specs.Prelude.{◌≡◌, true, ◌+◌, ◌≤◌, ◌<◌, length};
ghost use Rattle.octets.specs.Part.{patch};
ghost use Rattle.octets.specs.BigEndian.{big_endian};
ghost use Rattle.numbers.specs.Refusals.{written_as};
ghost use Rattle.codes.specs.Form.{code};
ghost use Rattle.recording.specs.Shape.{contents_start, entry_place};
ghost use Rattle.tables.specs.Places.{table_size};
ghost use Rattle.tables.specs.Layout.{well_formed, relay_of};
ghost use Rattle.editions.specs.Editions.{counter_width, tally_form};
ghost use Rattle.saved.specs.File.{body_count, head_width, bodies_at, saved_size, file_of};
ghost use Rattle.saved.specs.Save.{Saves, save_on};
ghost use Rattle.saved.specs.Steps.{start_bytes, entry_bytes, contents_bytes, tally_bytes};

use super::contents::entry_place;
use super::format::{KIND, SAVED_SIZE, TALLY_AT};
use editions::shape::{BODIES_AT, BODY_COUNT, COUNTER_WIDTH};
use editions::{EDITION, KnownEdition};
use numbers::Refusal;
use recording::{COUNT_AT, COUNT_WIDTH, LENGTH_WIDTH, OFFSET_WIDTH};
use rules::Tally;
use tables::check_tables;
use tables::places::TABLE_SIZE;

// How many bytes of the tables stand before the next multiple of 16 in the file.
const FIRST_PART: usize = 16 - BODIES_AT % 16;

// Writes kind, edition and count.
fn write_start(room: &mut [u8])
    requires { contents_start ≤ length room.old }
    ensures { room.new ≡ patch room.old 0 start_bytes }
{
    octets::set_at(room, 0, KIND);
    octets::set_at(room, 1, EDITION);
    octets::write_number_at(room, COUNT_AT, COUNT_WIDTH, BODY_COUNT as u64);
}

// Writes the entry of body i, which stands at this offset.
fn write_entry(room: &mut [u8], i: usize, offset: usize)
    requires { (i < body_count) × (bodies_at ≤ length room.old) }
    ensures { room.new
        ≡ patch room.old (entry_place head_width i) (entry_bytes offset i) }
{
    let at = entry_place(i);
    octets::write_number_at(room, at, OFFSET_WIDTH, offset as u64);
    let length = KnownEdition::current().width_of(i);
    octets::write_number_at(room, at + OFFSET_WIDTH, LENGTH_WIDTH, length as u64);
}

// Writes the contents.
fn write_contents(room: &mut [u8])
    requires { bodies_at ≤ length room.old }
    ensures { room.new ≡ patch room.old contents_start (contents_bytes body_count) }
{
    let mut offset = BODIES_AT;
    for i in 0..BODY_COUNT {
        write_entry(room, i, offset);
        offset += KnownEdition::current().width_of(i);
    }
}

fn write_counter(room: &mut [u8], at: usize, counter: u32)
    requires { at + counter_width ≤ length room.old }
    ensures { room.new ≡ patch room.old at (big_endian counter_width counter) }
{
    octets::write_number_at(room, at, COUNTER_WIDTH, u64::from(counter));
}

// Writes the tally at a place.
fn write_tally(room: &mut [u8], at: usize, tally: Tally)
    requires { at + (code tally_form).width ≤ length room.old }
    ensures { room.new ≡ patch room.old at (tally_bytes tally) }
{
    write_counter(room, at, tally.total);
    write_counter(room, at + COUNTER_WIDTH, tally.dropped);
    write_counter(room, at + 2 * COUNTER_WIDTH, tally.delivered);
    write_counter(room, at + 3 * COUNTER_WIDTH, tally.forwarded);
    write_counter(room, at + 4 * COUNTER_WIDTH, tally.spread);
    write_counter(room, at + 5 * COUNTER_WIDTH, tally.kept);
}

// Copies the tables into the file, in two parts, of which the second starts at a multiple of 16 in the room: a copy is
// slower where each of its stores may lie over the end of a cache line.
fn copy_tables(room: &mut [u8], tables: &[u8])
    requires { (length tables.now ≡ table_size) × (bodies_at + table_size ≤ length room.old) }
    ensures { room.new ≡ patch room.old bodies_at tables.now }
{
    octets::copy_at(room, BODIES_AT, &tables[0..FIRST_PART]);
    octets::copy_at(
        room,
        BODIES_AT + FIRST_PART,
        &tables[FIRST_PART..TABLE_SIZE],
    );
}

// Writes the file at the start of the room.
fn write_file(tables: &[u8], tally: Tally, room: &mut [u8])
    requires { (well_formed tables.now ≡ true) × (saved_size ≤ length room.old) }
    ensures { room.new
        ≡ patch room.old 0 (file_of (relay_of tables.now, tally)) }
{
    write_start(room);
    write_contents(room);
    copy_tables(room, tables);
    write_tally(room, TALLY_AT, tally);
}

// Saves tables and tally in the current edition, and says how long the file is.
pub fn save(tables: &[u8], tally: Tally, room: &mut [u8]) -> Result<usize, Refusal>
    ensures { Saves (save_on tables.now tally room.old) (written_as result) room.new }
{
    check_tables(tables)?;
    if room.len() < SAVED_SIZE {
        return Err(Refusal::Room);
    }
    write_file(tables, tally, room);
    Ok(SAVED_SIZE)
}
