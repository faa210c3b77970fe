// The local addresses.
ghost use Rattle.std.specs.Prelude.{◌≡◌, length};
ghost use Rattle.numbers.specs.Numbers.{local_count};
ghost use Rattle.rules.specs.View.{local_place, is_local};
ghost use Rattle.rules.specs.Refusals.{empty_local};
ghost use Rattle.tables.specs.Places.{table_size};
ghost use Rattle.tables.specs.Layout.{relay_of};
ghost use Rattle.lookup.specs.Search.{found};

use super::search::has_key;
use tables::places::{LOCAL_WIDTH, LOCALS_AT, PATHS_AT};

// The lowest place of a local address.
pub fn local_place(tables: &[u8], address: [u8; 16]) -> Option<usize>
    requires { length tables.now ≡ table_size }
    ensures { result ≡ found local_count (local_place (relay_of tables.now) address) }
{
    tables[LOCALS_AT..PATHS_AT]
        .chunks_exact(LOCAL_WIDTH)
        .position(|b| has_key(b, &address))
}

pub fn is_local(tables: &[u8], address: [u8; 16]) -> bool
    requires { length tables.now ≡ table_size }
    ensures { result ≡ is_local (relay_of tables.now) address }
{
    local_place(tables, address).is_some()
}

// The lowest empty place.
pub fn empty_local(tables: &[u8]) -> Option<usize>
    requires { length tables.now ≡ table_size }
    ensures { result ≡ found local_count (empty_local (relay_of tables.now)) }
{
    tables[LOCALS_AT..PATHS_AT]
        .chunks_exact(LOCAL_WIDTH)
        .position(|b| b[0] == 0)
}
