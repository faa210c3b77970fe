// The paths.
ghost use Rattle.std.specs.Prelude.{◌≡◌, ◌+◌, ◌≤◌, ◌<◌, length};
ghost use Rattle.octets.specs.Part.{patch};
ghost use Rattle.numbers.specs.Numbers.{blob_limit, path_count};
ghost use Rattle.rules.specs.Blobs.{one_blob, add_blob};
ghost use Rattle.tables.specs.Places.{table_size, paths_at, path_width};
ghost use Rattle.tables.specs.Records.{blobs_of};
ghost use Rattle.tables.specs.Layout.{record_at};
ghost use Rattle.update.specs.Written.{rate_width, rate_bytes, rate_written, notes_written, head_width, head_bytes, start_width, start_bytes, announced, path_written};

use super::Announced;
use super::blobs::{add_blob, one_blob};
use notes::Notes;
use rules::RateEntry;
use tables::fields::{
    PATH_BLOB_COUNT_AT, PATH_BLOCKED_UNTIL_AT, PATH_DESTINATION_AT, PATH_EXPIRY_AT, PATH_HOPS_AT,
    PATH_LAST_AT, PATH_NEXT_HOP_AT, PATH_NOTES_AT, PATH_PORT_AT, PATH_VIOLATIONS_AT,
};
use tables::places::{PATH_WIDTH, PATHS_AT, TIME_WIDTH};

// How wide a path's blobs are, with their count.
const BLOBS_WIDTH: usize = PATH_WIDTH - PATH_BLOB_COUNT_AT;

// Where violations and blocked-until stand behind the last accepted announce.
const VIOLATIONS_AT: usize = PATH_VIOLATIONS_AT - PATH_LAST_AT;

const BLOCKED_UNTIL_AT: usize = PATH_BLOCKED_UNTIL_AT - PATH_LAST_AT;

// Writes last accepted announce, violations and blocked-until.
fn write_rate(tables: &mut [u8], at: usize, rate: RateEntry)
    requires { at + rate_width ≤ length tables.old }
    ensures { tables.new ≡ patch tables.old at (rate_bytes rate) }
{
    octets::write_number_at(tables, at, TIME_WIDTH, rate.last);
    octets::set_at(tables, at + VIOLATIONS_AT, rate.violations);
    octets::write_number_at(
        tables,
        at + BLOCKED_UNTIL_AT,
        TIME_WIDTH,
        rate.blocked_until,
    );
}

// Changes these fields of the path at a place, and no other.
pub fn put_rate(tables: &mut [u8], place: usize, rate: RateEntry)
    requires { (length tables.old ≡ table_size) × (place < path_count) }
    ensures { tables.new ≡ rate_written tables.old place rate }
{
    write_rate(tables, PATHS_AT + PATH_WIDTH * place + PATH_LAST_AT, rate);
}

// Puts other notes into the path at a place.
pub fn put_notes(tables: &mut [u8], place: usize, notes: Notes)
    requires { (length tables.old ≡ table_size) × (place < path_count) }
    ensures { tables.new ≡ notes_written tables.old place notes }
{
    notes::write(tables, PATHS_AT + PATH_WIDTH * place + PATH_NOTES_AT, notes);
}

// Writes what stands before a record's rate.
fn put_head(tables: &mut [u8], at: usize, path: Announced)
    requires { at + head_width ≤ length tables.old }
    ensures { tables.new ≡ patch tables.old at (head_bytes path) }
{
    octets::set_at(tables, at, 1);
    octets::copy_at(tables, at + PATH_DESTINATION_AT, &path.destination);
    octets::set_at(tables, at + PATH_PORT_AT, path.port);
    octets::set_at(tables, at + PATH_HOPS_AT, path.hops);
    octets::copy_at(tables, at + PATH_NEXT_HOP_AT, &path.next_hop);
    octets::write_number_at(tables, at + PATH_EXPIRY_AT, TIME_WIDTH, path.expiry);
}

// Writes what stands before its blobs. An announce leaves no notes.
fn put_start(tables: &mut [u8], at: usize, path: Announced)
    requires { at + start_width ≤ length tables.old }
    ensures { tables.new ≡ patch tables.old at (start_bytes path) }
{
    put_head(tables, at, path);
    write_rate(tables, at + PATH_LAST_AT, path.rate);
    notes::write(tables, at + PATH_NOTES_AT, notes::none());
}

// Puts a new path at a place, spare blob places zero.
pub fn put_new_path(tables: &mut [u8], place: usize, path: Announced, blob: [u8; 10])
    requires { (length tables.old ≡ table_size) × (place < path_count) }
    ensures { tables.new ≡ path_written tables.old place
        (announced path (one_blob blob_limit blob)) }
{
    let at = PATHS_AT + PATH_WIDTH * place;
    put_start(tables, at, path);
    let from = at + PATH_BLOB_COUNT_AT;
    one_blob(&mut tables[from..from + BLOBS_WIDTH], blob);
}

// Puts a known path, which keeps its place, with a blob added to those that the record holds.
pub fn put_known_path(tables: &mut [u8], place: usize, path: Announced, blob: [u8; 10])
    requires { (length tables.old ≡ table_size) × (place < path_count) }
    ensures { tables.new ≡ path_written tables.old place
        (announced path (add_blob blob_limit blob
        (blobs_of (record_at paths_at path_width tables.old place)))) }
{
    let at = PATHS_AT + PATH_WIDTH * place;
    put_start(tables, at, path);
    let from = at + PATH_BLOB_COUNT_AT;
    add_blob(&mut tables[from..from + BLOBS_WIDTH], blob);
}

// Puts a known path, which keeps its place, and its blobs stay.
pub fn put_kept_path(tables: &mut [u8], place: usize, path: Announced)
    requires { (length tables.old ≡ table_size) × (place < path_count) }
    ensures { tables.new ≡ path_written tables.old place
        (announced path (blobs_of (record_at paths_at path_width tables.old place))) }
{
    put_start(tables, PATHS_AT + PATH_WIDTH * place, path);
}
