// The remembered hashes.
ghost use Rattle.std.specs.Prelude.{◌≡◌, length};
ghost use Rattle.numbers.specs.Numbers.{hash_count};
ghost use Rattle.rules.specs.View.{hash_place};
ghost use Rattle.tables.specs.Places.{table_size};
ghost use Rattle.tables.specs.Layout.{relay_of};
ghost use Rattle.lookup.specs.Search.{found};

use super::search::{Table, live_place};
use numbers::HASH_COUNT;
use tables::fields::HASH_EXPIRY_AT;
use tables::places::{HASH_WIDTH, HASHES_AT};

const HASHES: Table = Table {
    at: HASHES_AT,
    width: HASH_WIDTH,
    count: HASH_COUNT,
    expiry: HASH_EXPIRY_AT,
};

// The lowest place of a hash that is remembered.
pub fn hash_place(tables: &[u8], hash: [u8; 32], clock: u64) -> Option<usize>
    requires { length tables.now ≡ table_size }
    ensures { result ≡ found hash_count (hash_place clock (relay_of tables.now) hash) }
{
    live_place(tables, HASHES, &hash, clock)
}
