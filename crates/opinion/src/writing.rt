// Writing the log: one more entry, and a fresh log.
ghost use Rattle.std.specs.Prelude.{◌≡◌, false, ◌++◌, ◌<◌, ◌≤◌, length};
ghost use Rattle.numbers.specs.Numbers.{longest_packet};
ghost use Rattle.history.specs.Opinion.{list_limit};
ghost use Rattle.opinion_log.specs.Steps.{call_of};
ghost use Rattle.opinion.specs.Calls.{IsFresh};
ghost use Rattle.opinion.specs.Steps.{head_bytes, rate_body, with_entry, CanPut, Adds};

use codes::mark_of;
use numbers::ADDRESS_WIDTH;
use opinion_log::Entry;
use opinion_log::places::{
    ADDS, BODY_AT, CAME, CLOCK_AT, CLOCK_WIDTH, COUNT_AT, ENTRIES_AT, ENTRY_WIDTH, GRACE_AT,
    GRACE_WIDTH, LENGTH_AT, LENGTH_WIDTH, LOG_SIZE, MARKS, PENALTY_AT, PENALTY_WIDTH, RATE_WIDTH,
    REMOVES, RENUMBERS, SETS_PORT, SETS_RATE, TARGET_WIDTH,
};
use rules::RateSettings;

// The bytes before the body.
fn head_of(kind: u8, port: u8, word: bool, mode: u8, clock: u64, long: usize) -> [u8; BODY_AT]
    ensures { result ≡ head_bytes kind port word mode clock long }
{
    let mark = mark_of(word);
    let mut head = [kind, port, mark, mode, 0, 0, 0, 0, 0, 0, 0];
    octets::write_number_at(&mut head, CLOCK_AT, CLOCK_WIDTH, clock);
    octets::write_number_at(&mut head, LENGTH_AT, LENGTH_WIDTH, long as u64);
    head
}

// .. of a call that has none but its kind.
fn bare_head(kind: u8) -> [u8; BODY_AT]
    ensures { result ≡ head_bytes kind 0 false 0 0 0 }
{
    head_of(kind, 0, false, 0, 0, 0)
}

// The body of an entry that sets the rate.
fn rate_body(rate: RateSettings) -> [u8; RATE_WIDTH]
    ensures { result ≡ rate_body rate.target rate.grace rate.penalty }
{
    let mut body = [0u8; RATE_WIDTH];
    octets::write_number_at(&mut body, 0, TARGET_WIDTH, rate.target);
    octets::write_number_at(&mut body, GRACE_AT, GRACE_WIDTH, rate.grace);
    octets::write_number_at(&mut body, PENALTY_AT, PENALTY_WIDTH, rate.penalty);
    body
}

// Writes entry n, and counts it.
fn put_entry(log: &mut [u8; LOG_SIZE], n: usize, head: [u8; BODY_AT], body: &[u8])
    requires { (n < list_limit) × (length body.now ≤ longest_packet) }
    ensures { log.new ≡ with_entry log.old n (head ++ body.now) }
{
    let at = ENTRIES_AT + ENTRY_WIDTH * n;
    octets::copy_at(log, at, &head);
    octets::copy_at(log, at + BODY_AT, body);
    octets::set_at(log, COUNT_AT, n as u8 + 1);
}

// Lists one more call behind n. In line, so that each caller has the arm of its own kind alone: where it was called,
// setting a port took more than half as long again.
#[inline(always)]
pub fn put(log: &mut [u8; LOG_SIZE], n: usize, call: Entry)
    requires { (n < list_limit) × CanPut call }
    ensures { Adds log.old n (call_of call.entry) log.new }
{
    match call {
        Entry::Came(packet, arrived) => {
            let long = packet.len();
            let head = head_of(CAME, arrived.port, arrived.signed, 0, arrived.clock, long);
            put_entry(log, n, head, packet);
        }
        Entry::SetsPort(port, settings) => {
            let head = head_of(
                SETS_PORT,
                port,
                settings.on,
                settings.mode,
                0,
                settings.size,
            );
            put_entry(log, n, head, b"");
        }
        Entry::SetsRate(rate) => put_entry(log, n, bare_head(SETS_RATE), &rate_body(rate)),
        Entry::Adds(address) => put_entry(log, n, bare_head(ADDS), &address),
        Entry::Removes(address) => put_entry(log, n, bare_head(REMOVES), &address),
        Entry::Marks(destination, clock) => {
            put_entry(log, n, head_of(MARKS, 0, false, 0, clock, 0), &destination);
        }
        Entry::Renumbers(map) => put_entry(log, n, bare_head(RENUMBERS), &map),
    }
}

// A fresh log.
pub fn put_fresh(log: &mut [u8; LOG_SIZE], own: [u8; ADDRESS_WIDTH])
    ensures { IsFresh own log.new }
{
    octets::copy_at(log, 0, &own);
    octets::set_at(log, COUNT_AT, 0);
}
