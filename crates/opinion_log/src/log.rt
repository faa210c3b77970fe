// What the bytes of an entry say: specs/Log.antt in code.
ghost use Rattle.std.specs.Prelude.{◌≡◌, ◌<◌, ◌≤◌, length};
ghost use Rattle.octets.specs.Part.{part};
ghost use Rattle.numbers.specs.Numbers.{longest_packet, clock_limit};
ghost use Rattle.rules.specs.Relay.{make_port};
ghost use Rattle.rules.specs.Refusals.{rate_settings_ok};
ghost use Rattle.judging.specs.Seen.{arrival_of};
ghost use Rattle.history.specs.Opinion.{list_limit};
ghost use Rattle.opinion_log.specs.Log.{address_width, entry_width, port_in, word_in, mode_in, clock_in, length_in, packet_in, arrival_in, rate_in, address_in, images_in, entry_of, entry_bytes, listed_in};
ghost use Rattle.opinion_log.specs.Steps.{port_seen, call_of, Fine};

use super::places::{
    ADDS, BODY_AT, CAME, CLOCK_AT, CLOCK_WIDTH, COUNT_AT, ENTRIES_AT, ENTRY_WIDTH, GRACE_AT,
    KIND_AT, LENGTH_AT, LENGTH_WIDTH, LIST_LIMIT, LOG_SIZE, MARKS, MODE_AT, PENALTY_AT,
    PENALTY_WIDTH, PORT_AT, REMOVES, SETS_PORT, SETS_RATE, TARGET_WIDTH, WORD_AT,
};
use judging::{Arrived, SeenPort};
use numbers::{
    ADDRESS_WIDTH, GRACE_LIMIT, LONGEST_PACKET, PENALTY_LIMIT, PORT_COUNT, TARGET_LIMIT,
};
use rules::RateSettings;

// A call that is listed.
#[derive(Clone, Copy)]
pub enum Entry<'a> {
    Came(&'a [u8], Arrived),
    SetsPort(u8, SeenPort),
    SetsRate(RateSettings),
    Adds([u8; ADDRESS_WIDTH]),
    Removes([u8; ADDRESS_WIDTH]),
    // a destination's path, at a clock
    Marks([u8; ADDRESS_WIDTH], u64),
    // the sixteen images
    Renumbers([u8; PORT_COUNT]),
}

// How many calls are listed.
pub fn listed(log: &[u8; LOG_SIZE]) -> usize
    ensures { (result ≡ listed_in log.now) × (result ≤ list_limit) }
{
    usize::from(log[COUNT_AT]).min(LIST_LIMIT)
}

// The call that an entry lists. In line, so that each walk reads of an entry only what it asks for: called, it took the
// walks over a log of settings two to three times as long.
#[inline(always)]
pub fn entry_at(log: &[u8; LOG_SIZE], i: usize) -> Entry<'_>
    requires { i < list_limit }
    ensures { (call_of result ≡ entry_of (entry_bytes log.now i)) × Fine result }
{
    let start = ENTRIES_AT + ENTRY_WIDTH * i;
    read(&log[start..start + ENTRY_WIDTH])
}

// One that no call of its kind can have left is a renumbering.
#[inline(always)]
fn read(e: &[u8]) -> Entry<'_>
    requires { length e.now ≡ entry_width }
    ensures { (call_of result ≡ entry_of e.now) × Fine result }
{
    match e[KIND_AT] {
        CAME if packet::check(packet_in(e), LONGEST_PACKET).is_ok() => {
            Entry::Came(packet_in(e), arrived_in(e))
        }
        SETS_PORT => Entry::SetsPort(port_in(e), settings_in(e)),
        SETS_RATE if rate_within(rate_in(e)) => Entry::SetsRate(rate_in(e)),
        ADDS => Entry::Adds(address_in(e)),
        REMOVES => Entry::Removes(address_in(e)),
        MARKS => Entry::Marks(address_in(e), clock_in(e)),
        _ => Entry::Renumbers(images_in(e)),
    }
}

// ---- what an entry says

fn clock_in(e: &[u8]) -> u64
    requires { length e.now ≡ entry_width }
    ensures { (result ≡ clock_in e.now) × (result < clock_limit) }
{
    octets::number_at(e, CLOCK_AT, CLOCK_WIDTH)
}

// A packet's length, a port's size.
fn length_in(e: &[u8]) -> usize
    requires { length e.now ≡ entry_width }
    ensures { result ≡ length_in e.now }
{
    octets::number_at(e, LENGTH_AT, LENGTH_WIDTH) as usize
}

// Where a packet came, or the one that is set.
fn port_in(e: &[u8]) -> u8
    requires { length e.now ≡ entry_width }
    ensures { result ≡ port_in e.now }
{
    e[PORT_AT] % PORT_COUNT as u8
}

fn packet_in(e: &[u8]) -> &[u8]
    requires { length e.now ≡ entry_width }
    ensures { (result.now ≡ packet_in e.now) × (length result.now ≤ longest_packet) }
{
    &e[BODY_AT..BODY_AT + length_in(e).min(LONGEST_PACKET)]
}

// How the packet came.
fn arrived_in(e: &[u8]) -> Arrived
    requires { length e.now ≡ entry_width }
    ensures { (arrival_of (packet_in e.now) result ≡ arrival_in e.now) × (result.clock < clock_limit) }
{
    Arrived {
        port: port_in(e),
        clock: clock_in(e),
        signed: e[WORD_AT] == 1,
    }
}

// The settings that a port is given.
fn settings_in(e: &[u8]) -> SeenPort
    requires { length e.now ≡ entry_width }
    ensures { port_seen result ≡ make_port (word_in e.now) (mode_in e.now) (length_in e.now) }
{
    SeenPort {
        on: e[WORD_AT] == 1,
        mode: e[MODE_AT],
        size: length_in(e),
    }
}

fn rate_in(e: &[u8]) -> RateSettings
    requires { length e.now ≡ entry_width }
    ensures { result ≡ rate_in e.now }
{
    RateSettings {
        target: octets::number_at(e, BODY_AT, TARGET_WIDTH),
        grace: u64::from(e[BODY_AT + GRACE_AT]),
        penalty: octets::number_at(e, BODY_AT + PENALTY_AT, PENALTY_WIDTH),
    }
}

fn address_in(e: &[u8]) -> [u8; ADDRESS_WIDTH]
    requires { length e.now ≡ entry_width }
    ensures { result ≡ address_in e.now }
{
    octets::address_at(e, BODY_AT)
}

fn images_in(e: &[u8]) -> [u8; PORT_COUNT]
    requires { length e.now ≡ entry_width }
    ensures { result ≡ images_in e.now }
{
    // sixteen images stand where an address does
    address_in(e).map(|image| image % PORT_COUNT as u8)
}

// Whether rate settings are within their limits.
pub fn rate_within(rate: RateSettings) -> bool
    ensures { result ≡ rate_settings_ok rate }
{
    rate.target <= TARGET_LIMIT && rate.grace <= GRACE_LIMIT && rate.penalty <= PENALTY_LIMIT
}
