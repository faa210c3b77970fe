// The paths: the live one of a destination, a free place, and a path's fields.
ghost use Rattle.std.specs.Prelude.{◌≡◌, ◌≤◌, ◌<◌, length};
ghost use Rattle.numbers.specs.Numbers.{path_count, blob_limit};
ghost use Rattle.rules.specs.View.{path_place, free_path};
ghost use Rattle.rules.specs.Blobs.{held, is_among, greatest_emission};
ghost use Rattle.tables.specs.Places.{table_size, paths_at, path_width};
ghost use Rattle.tables.specs.Records.{path_of};
ghost use Rattle.tables.specs.Layout.{record_at, relay_of};
ghost use Rattle.lookup.specs.Search.{found};

use super::blobs::{greatest_of, has_blob};
use super::search::{Table, free_place, live_place, record_at};
use notes::Notes;
use numbers::PATH_COUNT;
use rules::RateEntry;
use tables::fields::{
    PATH_BLOCKED_UNTIL_AT, PATH_EXPIRY_AT, PATH_HOPS_AT, PATH_LAST_AT, PATH_NEXT_HOP_AT,
    PATH_NOTES_AT, PATH_PORT_AT, PATH_VIOLATIONS_AT,
};
use tables::places::{PATH_WIDTH, PATHS_AT};

const PATHS: Table = Table {
    at: PATHS_AT,
    width: PATH_WIDTH,
    count: PATH_COUNT,
    expiry: PATH_EXPIRY_AT,
};

// The lowest live path to a destination.
pub fn path_place(tables: &[u8], destination: [u8; 16], clock: u64) -> Option<usize>
    requires { length tables.now ≡ table_size }
    ensures { result ≡ found path_count (path_place clock (relay_of tables.now) destination) }
{
    live_place(tables, PATHS, &destination, clock)
}

// The lowest place that is empty or expired.
pub fn free_path(tables: &[u8], clock: u64) -> Option<usize>
    requires { length tables.now ≡ table_size }
    ensures { result ≡ found path_count (free_path clock (relay_of tables.now)) }
{
    free_place(tables, PATHS, clock)
}

// ---- the fields of the path at a place

// Its bytes.
fn path_at(tables: &[u8], place: usize) -> &[u8]
    requires { (length tables.now ≡ table_size) × (place < path_count) }
    ensures { (result.now ≡ record_at paths_at path_width tables.now place) × (length result.now ≡ path_width) }
{
    record_at(tables, PATHS_AT, PATH_WIDTH, place)
}

pub fn path_port(tables: &[u8], place: usize) -> u8
    requires { (length tables.now ≡ table_size) × (place < path_count) }
    ensures { result ≡ (path_of (record_at paths_at path_width tables.now place)).port }
{
    path_at(tables, place)[PATH_PORT_AT]
}

pub fn path_hops(tables: &[u8], place: usize) -> u8
    requires { (length tables.now ≡ table_size) × (place < path_count) }
    ensures { result ≡ (path_of (record_at paths_at path_width tables.now place)).hops }
{
    path_at(tables, place)[PATH_HOPS_AT]
}

pub fn path_next_hop(tables: &[u8], place: usize) -> [u8; 16]
    requires { (length tables.now ≡ table_size) × (place < path_count) }
    ensures { result ≡ (path_of (record_at paths_at path_width tables.now place)).next_hop }
{
    octets::address_at(path_at(tables, place), PATH_NEXT_HOP_AT)
}

fn rate_of(b: &[u8]) -> RateEntry
    requires { length b.now ≡ path_width }
    ensures { result ≡ (path_of b.now).rate }
{
    RateEntry {
        last: octets::number_of_8_at(b, PATH_LAST_AT),
        violations: b[PATH_VIOLATIONS_AT],
        blocked_until: octets::number_of_8_at(b, PATH_BLOCKED_UNTIL_AT),
    }
}

// Last accepted announce, violations and blocked-until.
pub fn path_rate(tables: &[u8], place: usize) -> RateEntry
    requires { (length tables.now ≡ table_size) × (place < path_count) }
    ensures { result ≡ (path_of (record_at paths_at path_width tables.now place)).rate }
{
    rate_of(path_at(tables, place))
}

// What the host has noted of it.
pub fn path_notes(tables: &[u8], place: usize) -> Notes
    requires { (length tables.now ≡ table_size) × (place < path_count) }
    ensures { result ≡ (path_of (record_at paths_at path_width tables.now place)).notes }
{
    notes::read(path_at(tables, place), PATH_NOTES_AT)
}

// Whether the path holds the blob.
pub fn holds_blob(tables: &[u8], place: usize, blob: [u8; 10]) -> bool
    requires { (length tables.now ≡ table_size) × (place < path_count)
        × ((path_of (record_at paths_at path_width tables.now place)).blobs.count ≤ blob_limit) }
    ensures { result ≡ is_among blob (held (path_of
        (record_at paths_at path_width tables.now place)).blobs) }
{
    has_blob(path_at(tables, place), &blob)
}

// The greatest emission among the path's blobs.
pub fn greatest_emission(tables: &[u8], place: usize) -> u64
    requires { (length tables.now ≡ table_size) × (place < path_count)
        × ((path_of (record_at paths_at path_width tables.now place)).blobs.count ≤ blob_limit) }
    ensures { result ≡ greatest_emission (held
        (path_of (record_at paths_at path_width tables.now place)).blobs) }
{
    greatest_of(path_at(tables, place))
}
