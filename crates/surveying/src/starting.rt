// The tables that every recording starts from: those of a fresh relay, set as a saved one is. Well-formed tables tell
// their settings, and no setting of theirs is refused.
ghost use Rattle.std.specs.Prelude.{◌≡◌, ◌<◌, true, [], ◌∷◌, slice_index_or};
ghost use Rattle.octets.specs.Index.{list_of};
ghost use Rattle.numbers.specs.Numbers.{port_count, local_count};
ghost use Rattle.numbers.specs.Refusals.{refused_number};
ghost use Rattle.rules.specs.Relay.{empty};
ghost use Rattle.tables.specs.Layout.{relay_of, well_formed};
ghost use Rattle.tables.specs.Called.{call_on};
ghost use Rattle.surveying.specs.Start.{port_call, rate_call, local_calls, setting_calls, tables_after};
ghost use Rattle.surveying.specs.Promise.{start_on, Surveys};
ghost use Rattle.surveying.specs.Steps.{size_told, rate_told};

use super::{COUNTER_COUNT, REFUSAL_COUNT};
use numbers::{LOCAL_COUNT, PORT_COUNT, Refusal};
use rules::RateSettings;
use tables::places::TABLE_SIZE;

// The bytes of a number of the announce rate, as it is told.
const SETTING_WIDTH: usize = 4;

// A port's size as it is told: two bytes, after on or off and the mode.
const SIZE_AT: usize = 2;

const SIZE_WIDTH: usize = 2;

// The size among a port's settings as they are told.
#[tactic(auto, unfolding(crate::specs::Steps::size_told))]
fn size_in(told: [u8; 4]) -> u64
    ensures { result ≡ size_told told }
{
    octets::number_at(&told, SIZE_AT, SIZE_WIDTH)
}

// Sets a port as another relay has it.
fn set_port_as(from: &[u8], to: &mut [u8], port: usize)
    requires { (well_formed from.now ≡ true) × (port < port_count) }
    ensures { to.new
        ≡ (call_on to.old (port_call (relay_of from.now) port)).tables }
{
    let Ok(settings) = status::port_settings(from, port as u64) else {
        return;
    };
    let Some(told) = settings else {
        return;
    };
    let _ = settings::set_port(
        to,
        port as u64,
        told[0] == 1,
        u64::from(told[1]),
        size_in(told),
    );
}

fn set_ports_as(from: &[u8], to: &mut [u8])
    requires { well_formed from.now ≡ true }
    ensures { to.new
        ≡ tables_after (list_of (port_call (relay_of from.now)) port_count) to.old }
{
    for port in 0..PORT_COUNT {
        set_port_as(from, to, port);
    }
}

// The announce rate's settings as they are told: four bytes a number.
#[tactic(auto, unfolding(crate::specs::Steps::rate_told))]
fn rate_in(told: [u8; 12]) -> RateSettings
    ensures { result ≡ rate_told told }
{
    RateSettings {
        target: octets::number_at(&told, 0, SETTING_WIDTH),
        grace: octets::number_at(&told, SETTING_WIDTH, SETTING_WIDTH),
        penalty: octets::number_at(&told, 2 * SETTING_WIDTH, SETTING_WIDTH),
    }
}

// Sets the announce rate as another relay has it.
fn set_rate_as(from: &[u8], to: &mut [u8])
    requires { well_formed from.now ≡ true }
    ensures { to.new ≡ (call_on to.old (rate_call (relay_of from.now))).tables }
{
    let Ok(told) = status::rate_settings(from) else {
        return;
    };
    let rate = rate_in(told);
    let _ = settings::set_rate(to, rate.target, rate.grace, rate.penalty);
}

// Adds the local address that another relay has at a place, if there is one.
fn add_local_of(from: &[u8], to: &mut [u8], place: usize)
    requires { (well_formed from.now ≡ true) × (place < local_count) }
    ensures { to.new
        ≡ tables_after (local_calls (slice_index_or (relay_of from.now).locals place empty ∷ [])) to.old }
{
    let Ok(told) = status::local_at(from, place as u64) else {
        return;
    };
    let Some(address) = told else {
        return;
    };
    let _ = settings::add_local(to, address);
}

fn add_locals_of(from: &[u8], to: &mut [u8])
    requires { well_formed from.now ≡ true }
    ensures { to.new
        ≡ tables_after (local_calls (relay_of from.now).locals) to.old }
{
    for place in 0..LOCAL_COUNT {
        add_local_of(from, to, place);
    }
}

// Sets a relay as another is set.
fn set_as(from: &[u8], to: &mut [u8])
    requires { well_formed from.now ≡ true }
    ensures { to.new ≡ tables_after (setting_calls (relay_of from.now)) to.old }
{
    set_ports_as(from, to);
    set_rate_as(from, to);
    add_locals_of(from, to);
}

// Begins a survey: the saved relay's settings make the start, and nothing is counted yet. A file that can't be loaded
// is refused as the load is, and all stays.
pub fn begin(
    file: &[u8],
    start: &mut [u8; TABLE_SIZE],
    work: &mut [u8; TABLE_SIZE],
    counts: &mut [u64; COUNTER_COUNT],
    refusals: &mut [u8; REFUSAL_COUNT],
) -> Result<(), Refusal>
    ensures { Surveys
        (start_on file.now start.old work.old counts.old
        refusals.old)
        (refused_number result) start.new work.new counts.new refusals.new }
{
    saved::load(file, work)?;
    let _ = settings::fresh(start, saved::own_address(file));
    set_as(work, start);
    *counts = [0; COUNTER_COUNT];
    *refusals = [0; REFUSAL_COUNT];
    Ok(())
}
