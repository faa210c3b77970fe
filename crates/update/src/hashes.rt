// The remembered hashes.
ghost use Rattle.std.specs.Prelude.{◌≡◌, ◌<◌, length};
ghost use Rattle.numbers.specs.Numbers.{hash_count};
ghost use Rattle.rules.specs.Relay.{make_remembered};
ghost use Rattle.tables.specs.Places.{table_size};
ghost use Rattle.tables.specs.Layout.{relay_of};
ghost use Rattle.update.specs.Written.{hash_written};

use numbers::HASH_COUNT;
use tables::fields::{HASH_BYTES_AT, HASH_EXPIRY_AT};
use tables::places::{HASH_NEXT_AT, HASH_WIDTH, HASHES_AT, RING_WIDTH, TIME_WIDTH};

// The ring place that is written next.
pub fn next_hash(tables: &[u8]) -> usize
    requires { length tables.now ≡ table_size }
    ensures { result ≡ (relay_of tables.now).hashes.next }
{
    octets::number_at(tables, HASH_NEXT_AT, RING_WIDTH) as usize
}

// Remembers a hash at a place, the ring's next one, which moves on.
pub fn remember(tables: &mut [u8], place: usize, hash: [u8; 32], expiry: u64)
    requires { (length tables.old ≡ table_size) × (place < hash_count) }
    ensures { tables.new ≡ hash_written tables.old place (make_remembered hash expiry) }
{
    let at = HASHES_AT + HASH_WIDTH * place;
    octets::set_at(tables, at, 1);
    octets::copy_at(tables, at + HASH_BYTES_AT, &hash);
    octets::write_number_at(tables, at + HASH_EXPIRY_AT, TIME_WIDTH, expiry);
    let next = (place + 1) % HASH_COUNT;
    octets::write_number_at(tables, HASH_NEXT_AT, RING_WIDTH, next as u64);
}
