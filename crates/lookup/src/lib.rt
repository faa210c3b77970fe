// What judging reads from the tables' bytes: own address and clock, ports, the place of a live record in each table,
// and its fields. Every function here is a helper: the caller shows the tables' size and that a place is within its
// table. No entry points.
#![tactic(auto)]

mod blobs;
mod expired;
mod hashes;
mod links;
mod locals;
mod paths;
mod ports;
mod returns;
mod search;

ghost use Rattle.std.specs.Prelude.{◌≡◌, length};
ghost use Rattle.tables.specs.Places.{table_size};
ghost use Rattle.tables.specs.Layout.{relay_of};

pub use expired::expired_path;
pub use hashes::hash_place;
pub use links::{free_link, link_at, link_place};
pub use locals::{empty_local, is_local, local_place};
pub use paths::{
    free_path, greatest_emission, holds_blob, path_hops, path_next_hop, path_notes, path_place,
    path_port, path_rate,
};
pub use ports::{port_mode, port_on, port_size};
pub use returns::{return_arrival, return_leaving, return_place};
use rules::RateSettings;
pub use search::{is_live, record_at};
use tables::places::{CLOCK_AT, GRACE_AT, PENALTY_AT, SETTING_WIDTH, TARGET_AT};

pub fn own_address(tables: &[u8]) -> [u8; 16]
    requires { length tables.now ≡ table_size }
    ensures { result ≡ (relay_of tables.now).own }
{
    octets::address_at(tables, 0)
}

pub fn last_clock(tables: &[u8]) -> u64
    requires { length tables.now ≡ table_size }
    ensures { result ≡ (relay_of tables.now).clock }
{
    octets::number_of_8_at(tables, CLOCK_AT)
}

// The announce rate's settings.
pub fn rate_settings(tables: &[u8]) -> RateSettings
    requires { length tables.now ≡ table_size }
    ensures { result ≡ (relay_of tables.now).rate }
{
    RateSettings {
        target: octets::number_at(tables, TARGET_AT, SETTING_WIDTH),
        grace: octets::number_at(tables, GRACE_AT, SETTING_WIDTH),
        penalty: octets::number_at(tables, PENALTY_AT, SETTING_WIDTH),
    }
}
