// The links: the live one of an id, a free place, and the link at a place.
ghost use Rattle.std.specs.Prelude.{◌≡◌, ◌<◌, length};
ghost use Rattle.numbers.specs.Numbers.{link_count};
ghost use Rattle.rules.specs.View.{link_place, free_link};
ghost use Rattle.tables.specs.Places.{table_size, links_at, link_width};
ghost use Rattle.tables.specs.Records.{link_of};
ghost use Rattle.tables.specs.Layout.{record_at, relay_of};
ghost use Rattle.lookup.specs.Search.{found};

use super::search::{Table, free_place, live_place, record_at};
use numbers::LINK_COUNT;
use rules::{Link, RemainingHops, TakenHops};
use tables::fields::{
    LINK_ANSWERING_AT, LINK_ASKING_AT, LINK_EXPIRY_AT, LINK_ID_AT, LINK_PROVED_AT,
    LINK_REMAINING_AT, LINK_TAKEN_AT,
};
use tables::places::{LINK_WIDTH, LINKS_AT};

const LINKS: Table = Table {
    at: LINKS_AT,
    width: LINK_WIDTH,
    count: LINK_COUNT,
    expiry: LINK_EXPIRY_AT,
};

// The lowest live link of an id.
pub fn link_place(tables: &[u8], id: [u8; 16], clock: u64) -> Option<usize>
    requires { length tables.now ≡ table_size }
    ensures { result ≡ found link_count (link_place clock (relay_of tables.now) id) }
{
    live_place(tables, LINKS, &id, clock)
}

// The lowest place that is empty or expired.
pub fn free_link(tables: &[u8], clock: u64) -> Option<usize>
    requires { length tables.now ≡ table_size }
    ensures { result ≡ found link_count (free_link clock (relay_of tables.now)) }
{
    free_place(tables, LINKS, clock)
}

fn link_of(b: &[u8]) -> Link
    requires { length b.now ≡ link_width }
    ensures { result ≡ link_of b.now }
{
    Link {
        id: octets::address_at(b, LINK_ID_AT),
        asking: b[LINK_ASKING_AT],
        answering: b[LINK_ANSWERING_AT],
        taken: TakenHops(b[LINK_TAKEN_AT]),
        remaining: RemainingHops(b[LINK_REMAINING_AT]),
        proved: b[LINK_PROVED_AT] == 1,
        expiry: octets::number_of_8_at(b, LINK_EXPIRY_AT),
    }
}

// The link at a place.
pub fn link_at(tables: &[u8], place: usize) -> Link
    requires { (length tables.now ≡ table_size) × (place < link_count) }
    ensures { result ≡ link_of (record_at links_at link_width tables.now place) }
{
    link_of(record_at(tables, LINKS_AT, LINK_WIDTH, place))
}
