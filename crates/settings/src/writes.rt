// Writes of a port's settings, of the announce rate, of a local address, and of an empty place.
ghost use Rattle.std.specs.Prelude.{◌≡◌, ◌+◌, ◌*◌, ◌<◌, length};
ghost use Rattle.octets.specs.Part.{patch};
ghost use Rattle.numbers.specs.Numbers.{port_count, local_count};
ghost use Rattle.codes.specs.Form.{code};
ghost use Rattle.rules.specs.Relay.{empty, used, make_port, make_rate_settings};
ghost use Rattle.tables.specs.Forms.{rate_settings_form};
ghost use Rattle.tables.specs.Places.{port_width, local_width, rate_at, ports_at, locals_at, table_size};
ghost use Rattle.tables.specs.Records.{port_bytes, slot_bytes, local_bytes};
ghost use Rattle.settings.specs.Calls.{fresh_ports};

use codes::mark_of;
use numbers::{LONGEST_PACKET, PORT_COUNT};
use tables::fields::{PORT_MODE_AT, PORT_ON_AT, PORT_SIZE_AT};
use tables::places::{
    GRACE_AT, LOCAL_WIDTH, LOCALS_AT, PENALTY_AT, PORT_WIDTH, PORTS_AT, SETTING_WIDTH, SIZE_WIDTH,
    TARGET_AT,
};

pub fn put_port(tables: &mut [u8], port: usize, on: bool, mode: u8, size: u64)
    requires { (length tables.old ≡ table_size) × (port < port_count) }
    ensures { tables.new ≡ patch tables.old (ports_at + port_width * port)
        (port_bytes (make_port on mode size)) }
{
    let at = PORTS_AT + PORT_WIDTH * port;
    octets::set_at(tables, at + PORT_ON_AT, mark_of(on));
    octets::set_at(tables, at + PORT_MODE_AT, mode);
    octets::write_number_at(tables, at + PORT_SIZE_AT, SIZE_WIDTH, size);
}

// The announce rate's settings.
pub fn put_rate(tables: &mut [u8], target: u64, grace: u64, penalty: u64)
    requires { length tables.old ≡ table_size }
    ensures { tables.new ≡ patch tables.old rate_at
        ((code rate_settings_form).write (make_rate_settings target grace penalty)) }
{
    octets::write_number_at(tables, TARGET_AT, SETTING_WIDTH, target);
    octets::write_number_at(tables, GRACE_AT, SETTING_WIDTH, grace);
    octets::write_number_at(tables, PENALTY_AT, SETTING_WIDTH, penalty);
}

// Every port as a fresh relay has it.
pub fn put_fresh_ports(tables: &mut [u8])
    requires { length tables.old ≡ table_size }
    ensures { tables.new ≡ patch tables.old ports_at fresh_ports }
{
    for i in 0..PORT_COUNT {
        put_port(tables, i, false, 0, LONGEST_PACKET as u64);
    }
}

pub fn put_local(tables: &mut [u8], place: usize, address: [u8; 16])
    requires { (length tables.old ≡ table_size) × (place < local_count) }
    ensures { tables.new ≡ patch tables.old (locals_at + local_width * place)
        (slot_bytes local_width local_bytes (used address)) }
{
    let at = LOCALS_AT + LOCAL_WIDTH * place;
    octets::set_at(tables, at, 1);
    octets::copy_at(tables, at + 1, &address);
}

pub fn empty_place(tables: &mut [u8], place: usize)
    requires { (length tables.old ≡ table_size) × (place < local_count) }
    ensures { tables.new ≡ patch tables.old (locals_at + local_width * place)
        (slot_bytes local_width local_bytes empty) }
{
    let at = LOCALS_AT + LOCAL_WIDTH * place;
    tables[at..at + LOCAL_WIDTH].fill(0);
}
