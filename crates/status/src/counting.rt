// How many records of a table are live.
ghost use Rattle.std.specs.Prelude.{◌≡◌, ◌+◌, ◌*◌, ◌≤◌, length};
ghost use Rattle.tables.specs.Places.{time_width};
ghost use Rattle.status.specs.Put.{live_records};

use lookup::{is_live, record_at};

// The number of live records among `count` of one width: a sum of marks, since it has no branch at each record.
pub fn live_count(
    tables: &[u8],
    at: usize,
    width: usize,
    count: usize,
    expiry: usize,
    clock: u64,
) -> u64
    requires { (at + width * count ≤ length tables.now) × (expiry + time_width ≤ width) }
    ensures { result ≡ live_records at width count expiry clock tables.now }
{
    (0..count)
        .map(|i| u64::from(is_live(record_at(tables, at, width, i), expiry, clock)))
        .sum()
}
