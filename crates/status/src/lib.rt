// What a host asks of the tables, which stay as they are: a port's settings, the announce rate, the record at a place,
// a destination's live path, how many records are live, the last clock.
// Entry points: port_settings, rate_settings, local_at, path_at, link_at, live_path, live_returns, live_hashes,
// last_clock. Nothing is told of a place outside its table or an empty one, of a number that is no port, and where no
// path is live.
#![tactic(auto)]

mod counting;
mod records;

ghost use Rattle.rules.specs.Questions.{port_settings, rate_settings, local_at, path_at, link_at, live_path, live_returns, live_hashes, the_last_clock};
ghost use Rattle.tables.specs.Asked.{tell_on};
ghost use Rattle.status.specs.Put.{TellsSome, TellsBytes, TellsCount};

use counting::live_count;
use lookup::{path_place, record_at};
use numbers::{HASH_COUNT, LINK_COUNT, LOCAL_COUNT, PATH_COUNT, PORT_COUNT, RETURN_COUNT, Refusal};
use records::record_told;
use tables::check_tables;
use tables::fields::{HASH_EXPIRY_AT, PATH_BLOBS_AT, PATH_DESTINATION_AT, RETURN_EXPIRY_AT};
use tables::places::{
    HASH_WIDTH, HASHES_AT, LINK_WIDTH, LINKS_AT, LOCAL_WIDTH, LOCALS_AT, PATH_WIDTH, PATHS_AT,
    PORT_WIDTH, PORTS_AT, RETURN_WIDTH, RETURNS_AT, TARGET_AT,
};

// How many bytes are told of a path: its record behind the mark, up to its blobs' places.
const PATH_TOLD: usize = PATH_BLOBS_AT - PATH_DESTINATION_AT;

// A port's settings: on, 1 or 0, its mode, and its size in two bytes.
pub fn port_settings(tables: &[u8], port: u64) -> Result<Option<[u8; 4]>, Refusal>
    ensures { TellsSome (tell_on tables.now (port_settings port)) result }
{
    check_tables(tables)?;
    if port >= PORT_COUNT as u64 {
        return Ok(None);
    }
    let mut settings = [0u8; 4];
    settings.copy_from_slice(record_at(tables, PORTS_AT, PORT_WIDTH, port as usize));
    Ok(Some(settings))
}

// The announce rate's settings: target interval, grace, penalty, each in four bytes.
pub fn rate_settings(tables: &[u8]) -> Result<[u8; 12], Refusal>
    ensures { TellsBytes (tell_on tables.now rate_settings) result }
{
    check_tables(tables)?;
    let mut settings = [0u8; 12];
    settings.copy_from_slice(&tables[TARGET_AT..PORTS_AT]);
    Ok(settings)
}

// The local address at a place.
pub fn local_at(tables: &[u8], place: u64) -> Result<Option<[u8; 16]>, Refusal>
    ensures { TellsSome (tell_on tables.now (local_at place)) result }
{
    check_tables(tables)?;
    if place >= LOCAL_COUNT as u64 {
        return Ok(None);
    }
    Ok(record_told(tables, LOCALS_AT, LOCAL_WIDTH, place as usize))
}

// The path at a place, live or not: destination, port, hops, next hop, expiry, last accepted announce, violations,
// blocked-until, marked unresponsive or not, number of blobs.
pub fn path_at(tables: &[u8], place: u64) -> Result<Option<[u8; PATH_TOLD]>, Refusal>
    ensures { TellsSome (tell_on tables.now (path_at place)) result }
{
    check_tables(tables)?;
    if place >= PATH_COUNT as u64 {
        return Ok(None);
    }
    Ok(record_told(tables, PATHS_AT, PATH_WIDTH, place as usize))
}

// The link at a place, live or not: id, asking port, answering port, taken hops, remaining hops, proved or not, expiry.
pub fn link_at(tables: &[u8], place: u64) -> Result<Option<[u8; 29]>, Refusal>
    ensures { TellsSome (tell_on tables.now (link_at place)) result }
{
    check_tables(tables)?;
    if place >= LINK_COUNT as u64 {
        return Ok(None);
    }
    Ok(record_told(tables, LINKS_AT, LINK_WIDTH, place as usize))
}

// A destination's live path at a clock.
pub fn live_path(
    tables: &[u8],
    destination: [u8; 16],
    clock: u64,
) -> Result<Option<[u8; PATH_TOLD]>, Refusal>
    ensures { TellsSome (tell_on tables.now (live_path destination clock)) result }
{
    check_tables(tables)?;
    let Some(place) = path_place(tables, destination, clock) else {
        return Ok(None);
    };
    Ok(record_told(tables, PATHS_AT, PATH_WIDTH, place))
}

// The number of live return records at a clock.
pub fn live_returns(tables: &[u8], clock: u64) -> Result<u64, Refusal>
    ensures { TellsCount (tell_on tables.now (live_returns clock)) result }
{
    check_tables(tables)?;
    Ok(live_count(
        tables,
        RETURNS_AT,
        RETURN_WIDTH,
        RETURN_COUNT,
        RETURN_EXPIRY_AT,
        clock,
    ))
}

// The number of live hashes at a clock.
pub fn live_hashes(tables: &[u8], clock: u64) -> Result<u64, Refusal>
    ensures { TellsCount (tell_on tables.now (live_hashes clock)) result }
{
    check_tables(tables)?;
    Ok(live_count(
        tables,
        HASHES_AT,
        HASH_WIDTH,
        HASH_COUNT,
        HASH_EXPIRY_AT,
        clock,
    ))
}

// The last accepted clock.
pub fn last_clock(tables: &[u8]) -> Result<u64, Refusal>
    ensures { TellsCount (tell_on tables.now the_last_clock) result }
{
    check_tables(tables)?;
    Ok(lookup::last_clock(tables))
}
