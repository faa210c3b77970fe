// The expired paths of a destination, which cases 6.2 and 6.3 alone read: looked for only where no live path was found.
ghost use Rattle.std.specs.Prelude.{◌≡◌, length};
ghost use Rattle.rules.specs.View.{expired_path};
ghost use Rattle.tables.specs.Places.{table_size, path_width, address_width};
ghost use Rattle.tables.specs.Layout.{relay_of};
ghost use Rattle.lookup.specs.Expired.{latest_of, expiry_of};

use super::search::has_key;
use tables::fields::PATH_EXPIRY_AT;
use tables::places::{LINKS_AT, PATH_WIDTH, PATHS_AT};

// The expiry of the path in a record, if it is used, of the destination and not live.
fn expiry_of(b: &[u8], destination: &[u8], clock: u64) -> Option<u64>
    requires { (length b.now ≡ path_width) × (length destination.now ≡ address_width) }
    ensures { result ≡ latest_of (expiry_of clock destination.now b.now) }
{
    if !has_key(b, destination) {
        return None;
    }
    let expiry = octets::number_of_8_at(b, PATH_EXPIRY_AT);
    if clock < expiry {
        return None;
    }
    Some(expiry)
}

// The greatest expiry of the destination's used paths that aren't live, if there is one.
pub fn expired_path(tables: &[u8], destination: [u8; 16], clock: u64) -> Option<u64>
    requires { length tables.now ≡ table_size }
    ensures { result ≡ latest_of (expired_path clock (relay_of tables.now) destination) }
{
    tables[PATHS_AT..LINKS_AT]
        .chunks_exact(PATH_WIDTH)
        .filter_map(|b| expiry_of(b, &destination, clock))
        .max()
}
