// The calls on the tables that need no packet, and what a host compares with its header. Each but the first two
// returns a refusal's number, or 0; a refusal changes no byte.
ghost use Rattle.std.specs.Prelude.{◌≡◌, eqb};
ghost use Rattle.tables.specs.Places.{table_size};
ghost use Rattle.tables.specs.Called.{Returns};
ghost use Rattle.settings.specs.Calls.{fresh_on, set_port_on, set_rate_on, add_local_on, remove_local_on, mark_on};
ghost use Rattle.renumbering.specs.Calls.{renumber_on};
ghost use Rattle.haskumye.specs.Tables.{interface_version, tables_refusal};

use numbers::refused_number;
use tables::check_tables;
use tables::places::TABLE_SIZE;

// The number of the interface that include/haskumye.h declares.
#[unsafe(no_mangle)]
pub extern "C" fn haskumye_version() -> u32
    ensures { result ≡ interface_version }
{
    6
}

// How many bytes tables have.
#[unsafe(no_mangle)]
pub extern "C" fn haskumye_table_size() -> usize
    ensures { result ≡ table_size }
{
    TABLE_SIZE
}

// Refusal 7, or 0 where these bytes are some relay's tables.
#[unsafe(no_mangle)]
pub extern "C" fn haskumye_check_tables(tables: &[u8]) -> u8
    ensures { result ≡ tables_refusal tables.now }
{
    refused_number(check_tables(tables))
}

// The tables of a relay with its own address, all ports off, boundary and of size 500, clock 0, tables empty.
#[unsafe(no_mangle)]
pub extern "C" fn haskumye_fresh(tables: &mut [u8], own: &[u8; 16]) -> u8
    ensures { Returns (fresh_on tables.old own.now) result tables.new }
{
    let address = *own;
    refused_number(settings::fresh(tables, address))
}

// Sets a port on, by 1, or off, by any other number, its mode and its size.
#[unsafe(no_mangle)]
pub extern "C" fn haskumye_set_port(
    tables: &mut [u8],
    port: u64,
    on: u8,
    mode: u64,
    size: u64,
) -> u8
    ensures { Returns (set_port_on tables.old port (eqb on 1) mode size) result tables.new }
{
    refused_number(settings::set_port(tables, port, on == 1, mode, size))
}

// Sets the announce rate: target interval, grace and penalty.
#[unsafe(no_mangle)]
pub extern "C" fn haskumye_set_announce_rate(
    tables: &mut [u8],
    target: u64,
    grace: u64,
    penalty: u64,
) -> u8
    ensures { Returns (set_rate_on tables.old target grace penalty) result tables.new }
{
    refused_number(settings::set_rate(tables, target, grace, penalty))
}

// Adds a local address, in the lowest empty place.
#[unsafe(no_mangle)]
pub extern "C" fn haskumye_add_local(tables: &mut [u8], address: &[u8; 16]) -> u8
    ensures { Returns (add_local_on tables.old address.now) result tables.new }
{
    let bytes = *address;
    refused_number(settings::add_local(tables, bytes))
}

// Removes a local address: its place is emptied.
#[unsafe(no_mangle)]
pub extern "C" fn haskumye_remove_local(tables: &mut [u8], address: &[u8; 16]) -> u8
    ensures { Returns (remove_local_on tables.old address.now) result tables.new }
{
    let bytes = *address;
    refused_number(settings::remove_local(tables, bytes))
}

// Marks a destination's live path unresponsive, and sets the last clock.
#[unsafe(no_mangle)]
pub extern "C" fn haskumye_mark_path_unresponsive(
    tables: &mut [u8],
    destination: &[u8; 16],
    clock: u64,
) -> u8
    ensures { Returns (mark_on tables.old destination.now clock) result tables.new }
{
    let address = *destination;
    refused_number(settings::mark_path_unresponsive(tables, address, clock))
}

// Replaces every stored port by its image, and moves each port's settings with it.
#[unsafe(no_mangle)]
pub extern "C" fn haskumye_renumber(tables: &mut [u8], map: &[u8; 16]) -> u8
    ensures { Returns (renumber_on tables.old map.now) result tables.new }
{
    let bytes = *map;
    refused_number(renumbering::renumber(tables, bytes))
}
