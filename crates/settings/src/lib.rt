// The calls that need no packet, apart from renumbering: a fresh relay, a port's settings, the announce rate, local
// addresses, and marking a path.
// Entry points: fresh, set_port, set_rate, add_local, remove_local, note_path, mark_path_unresponsive. A refusal
// changes no byte.
#![tactic(auto)]

mod writes;

ghost use Rattle.std.specs.Prelude.{◌≡◌, length};
ghost use Rattle.numbers.specs.Refusals.{refused_number};
ghost use Rattle.rules.specs.Relay.{make_rate_settings};
ghost use Rattle.rules.specs.Refusals.{rate_settings_ok, clock_bad};
ghost use Rattle.tables.specs.Places.{table_size};
ghost use Rattle.tables.specs.Layout.{relay_of};
ghost use Rattle.tables.specs.Called.{Returns};
ghost use Rattle.settings.specs.Calls.{fresh_on, set_port_on, set_rate_on, add_local_on, remove_local_on, note_on, mark_on};

use lookup::{empty_local, is_local, last_clock, local_place, path_notes, path_place};
use notes::Note;
use numbers::{
    CLOCK_LIMIT, GRACE_LIMIT, MODE_COUNT, PENALTY_LIMIT, PORT_COUNT, Refusal, TARGET_LIMIT,
};
use tables::check_tables;
use tables::places::{OWN_AT, TABLE_SIZE};
use update::{put_notes, set_clock};
use writes::{empty_place, put_fresh_ports, put_local, put_port, put_rate};

// The tables of a relay with its own address, all ports off, boundary and of size 500, clock 0, tables empty.
pub fn fresh(tables: &mut [u8], own: [u8; 16]) -> Result<(), Refusal>
    ensures { Returns (fresh_on tables.old own) (refused_number result) tables.new }
{
    if tables.len() != TABLE_SIZE {
        return Err(Refusal::Tables);
    }
    tables.fill(0);
    octets::copy_at(tables, OWN_AT, &own);
    put_fresh_ports(tables);
    Ok(())
}

// Sets a port on or off, its mode and its size.
pub fn set_port(tables: &mut [u8], port: u64, on: bool, mode: u64, size: u64) -> Result<(), Refusal>
    ensures { Returns (set_port_on tables.old port on mode size) (refused_number result) tables.new }
{
    check_tables(tables)?;
    if port >= PORT_COUNT as u64 || mode >= MODE_COUNT as u64 || !packet::is_size(size as usize) {
        return Err(Refusal::Setting);
    }
    put_port(tables, port as usize, on, mode as u8, size);
    Ok(())
}

// Whether the announce rate may be set to these.
fn rate_within(target: u64, grace: u64, penalty: u64) -> bool
    ensures { result ≡ rate_settings_ok (make_rate_settings target grace penalty) }
{
    target <= TARGET_LIMIT && grace <= GRACE_LIMIT && penalty <= PENALTY_LIMIT
}

// Sets the announce rate: target interval, grace and penalty.
pub fn set_rate(tables: &mut [u8], target: u64, grace: u64, penalty: u64) -> Result<(), Refusal>
    ensures { Returns (set_rate_on tables.old target grace penalty) (refused_number result) tables.new }
{
    check_tables(tables)?;
    if !rate_within(target, grace, penalty) {
        return Err(Refusal::Setting);
    }
    put_rate(tables, target, grace, penalty);
    Ok(())
}

// Adds a local address, in the lowest empty place.
pub fn add_local(tables: &mut [u8], address: [u8; 16]) -> Result<(), Refusal>
    ensures { Returns (add_local_on tables.old address) (refused_number result) tables.new }
{
    check_tables(tables)?;
    if is_local(tables, address) {
        return Err(Refusal::LocalAddress);
    }
    let Some(place) = empty_local(tables) else {
        return Err(Refusal::LocalFull);
    };
    put_local(tables, place, address);
    Ok(())
}

// Removes a local address: its place is emptied.
pub fn remove_local(tables: &mut [u8], address: [u8; 16]) -> Result<(), Refusal>
    ensures { Returns (remove_local_on tables.old address) (refused_number result) tables.new }
{
    check_tables(tables)?;
    let Some(place) = local_place(tables, address) else {
        return Err(Refusal::LocalAddress);
    };
    empty_place(tables, place);
    Ok(())
}

// Whether a clock is 2^40 or more, or below the last accepted clock.
fn clock_bad(tables: &[u8], clock: u64) -> bool
    requires { length tables.now ≡ table_size }
    ensures { result ≡ clock_bad (relay_of tables.now) clock }
{
    clock >= CLOCK_LIMIT || clock < last_clock(tables)
}

// Notes something of a destination's live path, and sets the last clock.
pub fn note_path(
    tables: &mut [u8],
    note: Note,
    destination: [u8; 16],
    clock: u64,
) -> Result<(), Refusal>
    ensures { Returns (note_on tables.old note destination clock) (refused_number result) tables.new }
{
    check_tables(tables)?;
    if clock_bad(tables, clock) {
        return Err(Refusal::Clock);
    }
    let Some(place) = path_place(tables, destination, clock) else {
        return Err(Refusal::NoLivePath);
    };
    let notes = notes::noted(path_notes(tables, place), note);
    put_notes(tables, place, notes);
    set_clock(tables, clock);
    Ok(())
}

// Marks a destination's live path unresponsive.
pub fn mark_path_unresponsive(
    tables: &mut [u8],
    destination: [u8; 16],
    clock: u64,
) -> Result<(), Refusal>
    ensures { Returns (mark_on tables.old destination clock) (refused_number result) tables.new }
{
    note_path(tables, Note::Unresponsive, destination, clock)
}
