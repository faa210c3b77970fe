// Row 7 for each section of the tables, record by record, and for those before and behind the paths, which a saved file
// has at other places. What is all zeros is passed by one OR over its bytes: links as a whole, for these fill from
// their first place on, and paths, whose records are wide, in groups.
ghost use Rattle.std.specs.Prelude.{◌≡◌, ◌+◌, ◌*◌, ◌≤◌, length};
ghost use Rattle.numbers.specs.Numbers.{path_count, link_count};
ghost use Rattle.tables.specs.Places.{path_width, link_width, paths_at, back_width, table_size};
ghost use Rattle.tables.specs.Records.{path_bytes_ok, link_bytes_ok};
ghost use Rattle.tables.specs.Layout.{start_ok, records_ok, front_ok, back_ok};
ghost use Rattle.tables.specs.Groups.{path_group_size};

use super::places::{
    CLOCK_AT, GRACE_AT, HASH_WIDTH, LINK_WIDTH, LINKS_AT, LOCAL_WIDTH, LOCALS_AT, PATH_WIDTH,
    PATHS_AT, PENALTY_AT, PORT_WIDTH, PORTS_AT, RETURN_WIDTH, RING_WIDTH, SETTING_WIDTH, TARGET_AT,
};
use super::plain_check::four_marked;
use super::record_check::{link_ok, local_ok, path_ok, port_ok};
use super::ring_check::{Hashes, Returns, ring_ok};
use numbers::{
    GRACE_LIMIT, HASH_COUNT, LINK_COUNT, PENALTY_LIMIT, RETURN_COUNT, TARGET_LIMIT, TIME_LIMIT,
};

// Paths of a group, and how far from one to the next of four that are spread over it.
const PATH_GROUP: usize = 8;

const PATH_SPREAD: usize = PATH_GROUP / 4;

// Where in a group the next bytes start that stand at a multiple of 16 in the tables, which hosts have at such a place.
const PATHS_FROM: usize = 16 - PATHS_AT % 16;

const LINKS_FROM: usize = 16 - LINKS_AT % 16;

// The last clock, and the announce rate's settings behind it.
fn start_ok(t: &[u8]) -> bool
    requires { paths_at ≤ length t.now }
    ensures { result ≡ start_ok t.now }
{
    octets::number_of_8_at(t, CLOCK_AT) <= TIME_LIMIT
        && octets::number_at(t, TARGET_AT, SETTING_WIDTH) <= TARGET_LIMIT
        && octets::number_at(t, GRACE_AT, SETTING_WIDTH) <= GRACE_LIMIT
        && octets::number_at(t, PENALTY_AT, SETTING_WIDTH) <= PENALTY_LIMIT
}

// The sections before the paths.
pub fn front_ok(t: &[u8]) -> bool
    requires { paths_at ≤ length t.now }
    ensures { result ≡ front_ok t.now }
{
    start_ok(t)
        && t[PORTS_AT..LOCALS_AT].chunks_exact(PORT_WIDTH).all(port_ok)
        && t[LOCALS_AT..PATHS_AT]
            .chunks_exact(LOCAL_WIDTH)
            .all(local_ok)
}

// The n records of paths that stand from this place on. A saved file's are tested one at a time: so `path_ok` has one
// caller, in which the compiler knows a record's width.
pub fn paths_each(t: &[u8], at: usize, n: usize) -> bool
    requires { at + path_width * n ≤ length t.now }
    ensures { result ≡ records_ok path_bytes_ok at path_width n t.now }
{
    t[at..at + PATH_WIDTH * n]
        .chunks_exact(PATH_WIDTH)
        .all(path_ok)
}

fn path_group_ok(group: &[u8]) -> bool
    requires { length group.now ≡ path_width * path_group_size }
    ensures { result ≡ records_ok path_bytes_ok 0 path_width path_group_size group.now }
{
    four_marked(group, PATH_WIDTH * PATH_SPREAD, 0) && octets::is_zero(group, PATHS_FROM)
        || paths_each(group, 0, PATH_GROUP)
}

pub fn paths_ok(t: &[u8]) -> bool
    requires { length t.now ≡ table_size }
    ensures { result ≡ records_ok path_bytes_ok paths_at path_width path_count t.now }
{
    t[PATHS_AT..LINKS_AT]
        .chunks_exact(PATH_WIDTH * PATH_GROUP)
        .all(path_group_ok)
}

fn links_ok(links: &[u8]) -> bool
    requires { length links.now ≡ link_width * link_count }
    ensures { result ≡ records_ok link_bytes_ok 0 link_width link_count links.now }
{
    links[0] == 0 && octets::is_zero(links, LINKS_FROM)
        || links.chunks_exact(LINK_WIDTH).all(link_ok)
}

// Links, returns and hashes, which stand from this place on.
pub fn back_ok(t: &[u8], at: usize) -> bool
    requires { at + back_width ≤ length t.now }
    ensures { result ≡ back_ok t.now at }
{
    let returns = at + LINK_WIDTH * LINK_COUNT;
    let hashes = returns + RING_WIDTH + RETURN_WIDTH * RETURN_COUNT;
    let end = hashes + RING_WIDTH + HASH_WIDTH * HASH_COUNT;
    links_ok(&t[at..returns])
        && ring_ok::<Returns>(&t[returns..hashes])
        && ring_ok::<Hashes>(&t[hashes..end])
}
