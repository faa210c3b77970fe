// The ports' settings at their new numbers.
ghost use Rattle.std.specs.Prelude.{◌≡◌, true, length, get_or};
ghost use Rattle.octets.specs.Part.{fields};
ghost use Rattle.numbers.specs.Numbers.{port_count};
ghost use Rattle.rules.specs.Relay.{no_port};
ghost use Rattle.rules.specs.Renumbering.{moved_ports};
ghost use Rattle.tables.specs.Places.{table_size};
ghost use Rattle.tables.specs.Records.{port_bytes};
ghost use Rattle.tables.specs.Layout.{relay_of, well_formed};

use maps::preimage_of;
use numbers::PORT_COUNT;
use tables::places::{FRESH_PORT, PORT_WIDTH, PORTS_AT};

// The settings of port i, as a fresh one's where that is no port.
fn settings_of(tables: &[u8], i: usize) -> [u8; PORT_WIDTH]
    requires { (well_formed tables.now ≡ true) × (length tables.now ≡ table_size) }
    ensures { result ≡ port_bytes (get_or (relay_of tables.now).ports i no_port) }
{
    if i >= PORT_COUNT {
        return FRESH_PORT;
    }
    let mut settings = [0u8; PORT_WIDTH];
    let at = PORTS_AT + PORT_WIDTH * i;
    settings.copy_from_slice(&tables[at..at + PORT_WIDTH]);
    settings
}

pub fn moved_ports(tables: &[u8], map: &[u8]) -> [u8; PORT_COUNT * PORT_WIDTH]
    requires { (well_formed tables.now ≡ true) × (length tables.now ≡ table_size)
        × (length map.now ≡ port_count) }
    ensures { result ≡ fields port_bytes port_count no_port
        (moved_ports map.now (relay_of tables.now).ports) }
{
    let mut moved = [0u8; PORT_COUNT * PORT_WIDTH];
    for n in 0..PORT_COUNT {
        let i = preimage_of(map, n);
        let settings = settings_of(tables, i);
        octets::copy_at(&mut moved, PORT_WIDTH * n, &settings);
    }
    moved
}
