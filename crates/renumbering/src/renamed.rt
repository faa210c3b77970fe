// Every stored port replaced by its image, record by record. An unused record has none.
ghost use Rattle.std.specs.Prelude.{◌≡◌, true, ◌+◌, ◌*◌, ◌≤◌, length};
ghost use Rattle.octets.specs.Part.{patch};
ghost use Rattle.numbers.specs.Numbers.{port_count, path_count, link_count, return_count};
ghost use Rattle.tables.specs.Places.{path_width, link_width, return_width, paths_at, links_at, returns_at, table_size};
ghost use Rattle.tables.specs.Records.{path_bytes_ok, link_bytes_ok, return_bytes_ok};
ghost use Rattle.tables.specs.Layout.{records_ok};
ghost use Rattle.renumbering.specs.Renamed.{has_ports, with_images, with_images_each, renamed_paths, renamed_links, renamed_returns};

use numbers::{LINK_COUNT, PATH_COUNT, RETURN_COUNT};
use tables::fields::{
    LINK_ANSWERING_AT, LINK_ASKING_AT, PATH_PORT_AT, RETURN_ARRIVAL_AT, RETURN_LEAVING_AT,
};
use tables::places::{LINK_WIDTH, LINKS_AT, PATH_WIDTH, PATHS_AT, RETURN_WIDTH, RETURNS_AT};

// Of one record, whose ports stand at these places.
fn rename_record(b: &mut [u8], places: &[usize], map: &[u8])
    requires { (has_ports map.now places.now b.old ≡ true) × (1 ≤ length b.old) × (length map.now ≡ port_count) }
    ensures { b.new ≡ with_images map.now places.now b.old }
{
    if b[0] != 0 { // an unused record has no stored port
        for place in places {
            let port = b[*place];
            b[*place] = map[usize::from(port)];
        }
    }
}

// Of each record of the table that stands there.
fn rename_records(t: &mut [u8], at: usize, width: usize, count: usize, places: &[usize], map: &[u8])
    requires { (records_ok (has_ports map.now places.now) at width count t.old ≡ true)
        × (at + width * count ≤ length t.old) × (1 ≤ width) × (length map.now ≡ port_count) }
    ensures { t.new ≡ patch t.old at
        (with_images_each at width count places.now map.now t.old) }
{
    for i in 0..count {
        let start = at + width * i;
        rename_record(&mut t[start..start + width], places, map);
    }
}

pub fn rename_paths(t: &mut [u8], map: &[u8])
    requires { (records_ok path_bytes_ok paths_at path_width path_count t.old ≡ true) × (length t.old ≡ table_size)
        × (length map.now ≡ port_count) }
    ensures { t.new ≡ patch t.old paths_at
        (renamed_paths map.now t.old) }
{
    rename_records(t, PATHS_AT, PATH_WIDTH, PATH_COUNT, &[PATH_PORT_AT], map);
}

pub fn rename_links(t: &mut [u8], map: &[u8])
    requires { (records_ok link_bytes_ok links_at link_width link_count t.old ≡ true) × (length t.old ≡ table_size)
        × (length map.now ≡ port_count) }
    ensures { t.new ≡ patch t.old links_at
        (renamed_links map.now t.old) }
{
    let ports = [LINK_ASKING_AT, LINK_ANSWERING_AT];
    rename_records(t, LINKS_AT, LINK_WIDTH, LINK_COUNT, &ports, map);
}

pub fn rename_returns(t: &mut [u8], map: &[u8])
    requires { (records_ok return_bytes_ok returns_at return_width return_count t.old ≡ true)
        × (length t.old ≡ table_size) × (length map.now ≡ port_count) }
    ensures { t.new ≡ patch t.old returns_at
        (renamed_returns map.now t.old) }
{
    let ports = [RETURN_ARRIVAL_AT, RETURN_LEAVING_AT];
    rename_records(t, RETURNS_AT, RETURN_WIDTH, RETURN_COUNT, &ports, map);
}
