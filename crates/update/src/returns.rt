// The return records.
ghost use Rattle.std.specs.Prelude.{◌≡◌, true, ◌<◌, length};
ghost use Rattle.numbers.specs.Numbers.{return_count};
ghost use Rattle.rules.specs.Relay.{make_return, holds};
ghost use Rattle.rules.specs.View.{is_live_return};
ghost use Rattle.tables.specs.Places.{table_size, address_width, return_width};
ghost use Rattle.tables.specs.Records.{slot_of, return_of};
ghost use Rattle.tables.specs.Layout.{relay_of, well_formed};
ghost use Rattle.update.specs.Written.{return_written, return_emptied, emptied_if_live, returns_emptied};

use numbers::{ADDRESS_WIDTH, RETURN_COUNT};
use tables::fields::{RETURN_ARRIVAL_AT, RETURN_EXPIRY_AT, RETURN_KEY_AT, RETURN_LEAVING_AT};
use tables::places::{RETURN_NEXT_AT, RETURN_WIDTH, RETURNS_AT, RING_WIDTH, TIME_WIDTH};

// The ring place that is written next.
pub fn next_return(tables: &[u8]) -> usize
    requires { length tables.now ≡ table_size }
    ensures { result ≡ (relay_of tables.now).returns.next }
{
    octets::number_at(tables, RETURN_NEXT_AT, RING_WIDTH) as usize
}

// Puts a return record at a place, the ring's next one, which moves on.
pub fn put_return(
    tables: &mut [u8],
    place: usize,
    key: [u8; 16],
    arrival: u8,
    leaving: u8,
    expiry: u64,
)
    requires { (length tables.old ≡ table_size) × (place < return_count) }
    ensures { tables.new ≡ return_written tables.old place
        (make_return key arrival leaving expiry) }
{
    let at = RETURNS_AT + RETURN_WIDTH * place;
    octets::set_at(tables, at, 1);
    octets::copy_at(tables, at + RETURN_KEY_AT, &key);
    octets::set_at(tables, at + RETURN_ARRIVAL_AT, arrival);
    octets::set_at(tables, at + RETURN_LEAVING_AT, leaving);
    octets::write_number_at(tables, at + RETURN_EXPIRY_AT, TIME_WIDTH, expiry);
    let next = (place + 1) % RETURN_COUNT;
    octets::write_number_at(tables, RETURN_NEXT_AT, RING_WIDTH, next as u64);
}

// Empties the record at a place.
pub fn empty_return(tables: &mut [u8], place: usize)
    requires { (length tables.old ≡ table_size) × (place < return_count) }
    ensures { tables.new ≡ return_emptied tables.old place }
{
    let at = RETURNS_AT + RETURN_WIDTH * place;
    tables[at..at + RETURN_WIDTH].fill(0);
}

// Whether a record's bytes hold a live return record of the key.
fn is_live(b: &[u8], key: &[u8], clock: u64) -> bool
    requires { (length b.now ≡ return_width) × (length key.now ≡ address_width) }
    ensures { result ≡ holds (is_live_return clock key.now) (slot_of return_of b.now) }
{
    b[0] != 0
        && &b[RETURN_KEY_AT..RETURN_KEY_AT + ADDRESS_WIDTH] == key
        && clock < octets::number_of_8_at(b, RETURN_EXPIRY_AT)
}

// Empties the record at a place if it is a live one of the key.
fn empty_if_live(tables: &mut [u8], place: usize, key: &[u8], clock: u64)
    requires { (length tables.old ≡ table_size) × (place < return_count) × (length key.now ≡ address_width) }
    ensures { tables.new ≡ emptied_if_live clock key.now tables.old place }
{
    let at = RETURNS_AT + RETURN_WIDTH * place;
    if is_live(&tables[at..at + RETURN_WIDTH], key, clock) {
        empty_return(tables, place);
    }
}

// Empties every live record of the key, place by place.
fn empty_each(tables: &mut [u8], key: &[u8], clock: u64)
    requires { (well_formed tables.old ≡ true) × (length key.now ≡ address_width) }
    ensures { tables.new ≡ returns_emptied clock key.now tables.old }
{
    for place in 0..RETURN_COUNT {
        empty_if_live(tables, place, key, clock);
    }
}

// Empties every live record of the key.
pub fn empty_returns(tables: &mut [u8], key: [u8; 16], clock: u64)
    requires { well_formed tables.old ≡ true }
    ensures { tables.new ≡ returns_emptied clock key tables.old }
{
    empty_each(tables, &key, clock);
}
