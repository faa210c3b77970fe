// Row 7 for one record of each kind, as the slice of its bytes. One that is not marked as used must be all zeros, mark
// included, which is one OR over its bytes. Two ports are tested by one comparison: an OR is below 16 where both are.
ghost use Rattle.std.specs.Prelude.{◌≡◌, ◌≤◌, length};
ghost use Rattle.rules.specs.Refusals.{rate_entry_ok};
ghost use Rattle.tables.specs.Records.{port_bytes_ok, local_bytes_ok, path_of, path_bytes_ok, link_bytes_ok, return_bytes_ok, hash_bytes_ok};
ghost use Rattle.tables.specs.Groups.{used_or_zero};
ghost use Rattle.tables.specs.Places.{port_width, local_width, path_width, link_width, return_width, hash_width};

use super::fields::{
    HASH_EXPIRY_AT, LINK_ANSWERING_AT, LINK_ASKING_AT, LINK_EXPIRY_AT, LINK_PROVED_AT,
    PATH_BLOB_COUNT_AT, PATH_BLOCKED_UNTIL_AT, PATH_EXPIRY_AT, PATH_LAST_AT, PATH_NOTES_AT,
    PATH_PORT_AT, PORT_MODE_AT, PORT_SIZE_AT, RETURN_ARRIVAL_AT, RETURN_EXPIRY_AT,
    RETURN_LEAVING_AT,
};
use super::places::SIZE_WIDTH;
use numbers::{BLOB_LIMIT, BLOCKED_LIMIT, CLOCK_LIMIT, MODE_COUNT, PORT_COUNT, TIME_LIMIT};

pub fn port_ok(b: &[u8]) -> bool
    requires { length b.now ≡ port_width }
    ensures { result ≡ port_bytes_ok b.now }
{
    b[0] < 2
        && b[PORT_MODE_AT] < MODE_COUNT
        && packet::is_size(octets::number_at(b, PORT_SIZE_AT, SIZE_WIDTH) as usize)
}

pub fn local_ok(b: &[u8]) -> bool
    requires { length b.now ≡ local_width }
    ensures { result ≡ local_bytes_ok b.now }
{
    b[0] == 1 || octets::is_zero(b, 16)
}

// A path's last accepted announce and blocked-until. Its violations are any byte.
fn rate_ok(b: &[u8]) -> bool
    requires { length b.now ≡ path_width }
    ensures { result ≡ rate_entry_ok (path_of b.now).rate }
{
    octets::number_of_8_at(b, PATH_LAST_AT) < CLOCK_LIMIT
        && octets::number_of_8_at(b, PATH_BLOCKED_UNTIL_AT) <= BLOCKED_LIMIT
}

pub fn path_ok(b: &[u8]) -> bool
    requires { length b.now ≡ path_width }
    ensures { result ≡ path_bytes_ok b.now }
{
    if b[0] != 1 {
        return octets::is_zero(b, 16);
    }
    notes::are_fine(b, PATH_NOTES_AT)
        && b[PATH_PORT_AT] < PORT_COUNT as u8
        && 1 <= b[PATH_BLOB_COUNT_AT]
        && b[PATH_BLOB_COUNT_AT] <= BLOB_LIMIT as u8
        && octets::number_of_8_at(b, PATH_EXPIRY_AT) <= TIME_LIMIT
        && rate_ok(b)
}

pub fn link_ok(b: &[u8]) -> bool
    requires { length b.now ≡ link_width }
    ensures { result ≡ link_bytes_ok b.now }
{
    if b[0] != 1 {
        return octets::is_zero(b, 16);
    }
    b[LINK_PROVED_AT] < 2
        && b[LINK_ASKING_AT] | b[LINK_ANSWERING_AT] < PORT_COUNT as u8
        && octets::number_of_8_at(b, LINK_EXPIRY_AT) <= TIME_LIMIT
}

pub fn return_ok(b: &[u8]) -> bool
    requires { length b.now ≡ return_width }
    ensures { result ≡ return_bytes_ok b.now }
{
    if b[0] != 1 {
        return octets::is_zero(b, 16);
    }
    b[RETURN_ARRIVAL_AT] | b[RETURN_LEAVING_AT] < PORT_COUNT as u8
        && octets::number_of_8_at(b, RETURN_EXPIRY_AT) <= TIME_LIMIT
}

pub fn hash_ok(b: &[u8]) -> bool
    requires { length b.now ≡ hash_width }
    ensures { result ≡ hash_bytes_ok b.now }
{
    if b[0] != 1 {
        return octets::is_zero(b, 16);
    }
    octets::number_of_8_at(b, HASH_EXPIRY_AT) <= TIME_LIMIT
}

// Of a record of any kind, whether it is marked as used, or all zeros. The test for zeros stands first, so that the
// compiler loads the mark with the word that it stands in.
pub fn used_or_zero(b: &[u8]) -> bool
    requires { 16 ≤ length b.now }
    ensures { result ≡ used_or_zero b.now }
{
    let zero = octets::is_zero(b, 16);
    b[0] == 1 || zero
}
