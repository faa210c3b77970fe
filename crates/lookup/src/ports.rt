// The ports' settings.
ghost use Rattle.std.specs.Prelude.{◌≡◌, ◌<◌, length};
ghost use Rattle.numbers.specs.Numbers.{port_count};
ghost use Rattle.rules.specs.View.{port_on, port_mode, port_size};
ghost use Rattle.tables.specs.Places.{table_size};
ghost use Rattle.tables.specs.Layout.{relay_of};

use super::search::record_at;
use numbers::{LONGEST_PACKET, PORT_COUNT};
use tables::fields::{PORT_MODE_AT, PORT_ON_AT, PORT_SIZE_AT};
use tables::places::{PORT_WIDTH, PORTS_AT, SIZE_WIDTH};

// Whether a port is one of the sixteen, and on.
pub fn port_on(tables: &[u8], port: u64) -> bool
    requires { length tables.now ≡ table_size }
    ensures { result ≡ port_on (relay_of tables.now) port }
{
    port < PORT_COUNT as u64
        && record_at(tables, PORTS_AT, PORT_WIDTH, port as usize)[PORT_ON_AT] == 1
}

pub fn port_mode(tables: &[u8], port: u64) -> u8
    requires { (length tables.now ≡ table_size) × (port < port_count) }
    ensures { result ≡ port_mode (relay_of tables.now) port }
{
    record_at(tables, PORTS_AT, PORT_WIDTH, port as usize)[PORT_MODE_AT]
}

// How long a packet is at most that a port carries.
pub fn port_size(tables: &[u8], port: u64) -> usize
    requires { length tables.now ≡ table_size }
    ensures { result ≡ port_size (relay_of tables.now) port }
{
    if port >= PORT_COUNT as u64 {
        return LONGEST_PACKET;
    }
    let b = record_at(tables, PORTS_AT, PORT_WIDTH, port as usize);
    octets::number_at(b, PORT_SIZE_AT, SIZE_WIDTH) as usize
}
