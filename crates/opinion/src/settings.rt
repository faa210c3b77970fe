// The calls that need no packet. A refusal changes no byte of the log.
ghost use Rattle.std.specs.Prelude.{◌≡◌, not, leb};
ghost use Rattle.octets.specs.Choice.{◌or◌};
ghost use Rattle.numbers.specs.Numbers.{port_count, mode_count, is_size};
ghost use Rattle.numbers.specs.Refusals.{refused_number};
ghost use Rattle.rules.specs.Calls.{sets_port, sets_rate, adds, removes, renumbers};
ghost use Rattle.opinion.specs.Calls.{IsFresh, Settles};

use super::refusing::room_in;
use super::writing::{put, put_fresh};
use judging::SeenPort;
use maps::one_to_one;
use numbers::{LOCAL_COUNT, MODE_COUNT, PORT_COUNT, Refusal};
use opinion_log::places::LOG_SIZE;
use opinion_log::{Entry, is_local, local_number, rate_within};
use rules::RateSettings;

// Makes a fresh log. What it held is not read.
pub fn fresh(log: &mut [u8; LOG_SIZE], own: [u8; 16])
    ensures { IsFresh own log.new }
{
    put_fresh(log, own);
}

// A port over 15, an unknown mode, or a size outside the range.
fn setting_bad(port: u64, mode: u64, size: u64) -> bool
    ensures { result ≡ (leb port_count port or leb mode_count mode or not (is_size size)) }
{
    port >= PORT_COUNT as u64 || mode >= MODE_COUNT as u64 || !packet::is_size(size as usize)
}

// Sets a port on or off, its mode and its size.
pub fn set_port(
    log: &mut [u8; LOG_SIZE],
    port: u64,
    on: bool,
    mode: u64,
    size: u64,
) -> Result<(), Refusal>
    ensures { Settles log.old (sets_port port on mode size) (refused_number result) log.new }
{
    let n = room_in(log)?;
    if setting_bad(port, mode, size) {
        return Err(Refusal::Setting);
    }
    let settings = SeenPort {
        on,
        mode: mode as u8,
        size: size as usize,
    };
    put(log, n, Entry::SetsPort(port as u8, settings));
    Ok(())
}

// Sets the announce rate: target interval, grace and penalty.
pub fn set_rate(
    log: &mut [u8; LOG_SIZE],
    target: u64,
    grace: u64,
    penalty: u64,
) -> Result<(), Refusal>
    ensures { Settles log.old (sets_rate target grace penalty) (refused_number result) log.new }
{
    let n = room_in(log)?;
    let rate = RateSettings {
        target,
        grace,
        penalty,
    };
    if !rate_within(rate) {
        return Err(Refusal::Setting);
    }
    put(log, n, Entry::SetsRate(rate));
    Ok(())
}

// Adds a local address.
pub fn add_local(log: &mut [u8; LOG_SIZE], address: [u8; 16]) -> Result<(), Refusal>
    ensures { Settles log.old (adds address) (refused_number result) log.new }
{
    let n = room_in(log)?;
    if is_local(log, n, address) {
        return Err(Refusal::LocalAddress);
    }
    if local_number(log, n) >= LOCAL_COUNT {
        return Err(Refusal::LocalFull);
    }
    put(log, n, Entry::Adds(address));
    Ok(())
}

// Removes a local address.
pub fn remove_local(log: &mut [u8; LOG_SIZE], address: [u8; 16]) -> Result<(), Refusal>
    ensures { Settles log.old (removes address) (refused_number result) log.new }
{
    let n = room_in(log)?;
    if !is_local(log, n, address) {
        return Err(Refusal::LocalAddress);
    }
    put(log, n, Entry::Removes(address));
    Ok(())
}

// Renumbers the ports.
pub fn renumber(log: &mut [u8; LOG_SIZE], map: [u8; 16]) -> Result<(), Refusal>
    ensures { Settles log.old (renumbers map) (refused_number result) log.new }
{
    let n = room_in(log)?;
    if !one_to_one(&map) {
        return Err(Refusal::Map);
    }
    put(log, n, Entry::Renumbers(map));
    Ok(())
}
