// The rows of the refusal table that more than one call has.
ghost use Rattle.std.specs.Prelude.{◌≡◌, ◌≤◌};
ghost use Rattle.numbers.specs.Refusals.{refused_number};
ghost use Rattle.history.specs.Opinion.{list_limit, clock_bad};
ghost use Rattle.opinion_log.specs.Log.{known_in, listed_in};
ghost use Rattle.opinion.specs.Steps.{RefusesAs, HasRoom};

use numbers::{CLOCK_LIMIT, LEAST_OUTPUT, Refusal};
use opinion_log::places::{LIST_LIMIT, LOG_SIZE};
use opinion_log::{last_clock, listed, port_at};

// Whether a clock is 2^40 or more, or below the last accepted clock.
pub fn clock_bad(log: &[u8; LOG_SIZE], n: usize, clock: u64) -> bool
    requires { n ≤ list_limit }
    ensures { result ≡ clock_bad (known_in log.now n) clock }
{
    clock >= CLOCK_LIMIT || clock < last_clock(log, n)
}

// How many calls are listed, if one more has room.
pub fn room_in(log: &[u8; LOG_SIZE]) -> Result<usize, Refusal>
    ensures { HasRoom log.now result }
{
    let n = listed(log);
    if n >= LIST_LIMIT {
        return Err(Refusal::ListFull);
    }
    Ok(n)
}

// Whether a packet is accepted, with an output buffer of this length.
pub fn check_packet(
    log: &[u8; LOG_SIZE],
    packet: &[u8],
    port: u64,
    clock: u64,
    room: usize,
) -> Result<(), Refusal>
    ensures { RefusesAs log.now (listed_in log.now) packet.now port clock room (refused_number result) }
{
    let n = room_in(log)?;
    if room < LEAST_OUTPUT {
        return Err(Refusal::Output);
    }
    let settings = port_at(log, n, port as usize);
    if !settings.on {
        return Err(Refusal::ArrivalPort);
    }
    if clock_bad(log, n, clock) {
        return Err(Refusal::Clock);
    }
    packet::check(packet, settings.size)
}
