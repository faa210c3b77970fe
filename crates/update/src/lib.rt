// What an accepted packet writes into the tables' bytes: the last clock, and one record of a table.
// Every function here is a helper: the caller shows the tables' size and that a place is within its table. No entry
// points.
#![tactic(auto)]

mod blobs;
mod hashes;
mod links;
mod paths;
mod returns;

ghost use Rattle.std.specs.Prelude.{◌≡◌, length};
ghost use Rattle.tables.specs.Places.{table_size};
ghost use Rattle.update.specs.Written.{clock_written};

pub use hashes::{next_hash, remember};
pub use links::put_link;
pub use paths::{put_kept_path, put_known_path, put_new_path, put_notes, put_rate};
pub use returns::{empty_return, empty_returns, next_return, put_return};
use rules::RateEntry;
use tables::places::{CLOCK_AT, TIME_WIDTH};

// What an announce sets of a path, beside its blob.
#[derive(Clone, Copy)]
pub struct Announced {
    pub destination: [u8; 16],
    pub port: u8,
    pub hops: u8,
    pub next_hop: [u8; 16],
    pub expiry: u64,
    pub rate: RateEntry,
}

// Every accepted packet sets the last clock.
pub fn set_clock(tables: &mut [u8], clock: u64)
    requires { length tables.old ≡ table_size }
    ensures { tables.new ≡ clock_written tables.old clock }
{
    octets::write_number_at(tables, CLOCK_AT, TIME_WIDTH, clock);
}
