// The return records: the live one of a key, and a record's ports.
ghost use Rattle.std.specs.Prelude.{◌≡◌, ◌<◌, length};
ghost use Rattle.numbers.specs.Numbers.{return_count};
ghost use Rattle.rules.specs.View.{return_place};
ghost use Rattle.tables.specs.Places.{table_size, returns_at, return_width};
ghost use Rattle.tables.specs.Records.{return_of};
ghost use Rattle.tables.specs.Layout.{record_at, relay_of};
ghost use Rattle.lookup.specs.Search.{found};

use super::search::{Table, live_place, record_at};
use numbers::RETURN_COUNT;
use tables::fields::{RETURN_ARRIVAL_AT, RETURN_EXPIRY_AT, RETURN_LEAVING_AT};
use tables::places::{RETURN_WIDTH, RETURNS_AT};

const RETURNS: Table = Table {
    at: RETURNS_AT,
    width: RETURN_WIDTH,
    count: RETURN_COUNT,
    expiry: RETURN_EXPIRY_AT,
};

// The lowest live return record of a key.
pub fn return_place(tables: &[u8], key: [u8; 16], clock: u64) -> Option<usize>
    requires { length tables.now ≡ table_size }
    ensures { result ≡ found return_count (return_place clock (relay_of tables.now) key) }
{
    live_place(tables, RETURNS, &key, clock)
}

// ---- the fields of the record at a place

pub fn return_arrival(tables: &[u8], place: usize) -> u8
    requires { (length tables.now ≡ table_size) × (place < return_count) }
    ensures { result ≡ (return_of (record_at returns_at return_width tables.now place)).arrival }
{
    record_at(tables, RETURNS_AT, RETURN_WIDTH, place)[RETURN_ARRIVAL_AT]
}

pub fn return_leaving(tables: &[u8], place: usize) -> u8
    requires { (length tables.now ≡ table_size) × (place < return_count) }
    ensures { result ≡ (return_of (record_at returns_at return_width tables.now place)).leaving }
{
    record_at(tables, RETURNS_AT, RETURN_WIDTH, place)[RETURN_LEAVING_AT]
}
