// What an answered entry adds to each counter.
ghost use Rattle.std.specs.Prelude.{◌≡◌, ◌<◌, not, ◌==◌, nat_eq, slice_index};
ghost use Rattle.octets.specs.Choice.{◌then◌otherwise◌};
ghost use Rattle.octets.specs.Index.{◌and◌};
ghost use Rattle.rules.specs.Answers.{in_set};
ghost use Rattle.surveying.specs.Counts.{is_accepted, sent_by, leaving_by, test_of, test_order, test_count};
ghost use Rattle.surveying.specs.Promise.{counter_count, counted_at, add_one};

use numbers::PORT_COUNT;
use rules::{Answer, Verdict};

// The counters: packets, bytes in, bytes out and packets dropped, of sixteen ports each; then the drops by each test.
pub const BYTES_IN_AT: usize = PORT_COUNT;

pub const BYTES_OUT_AT: usize = 2 * PORT_COUNT;

pub const DROPPED_AT: usize = 3 * PORT_COUNT;

pub const TESTS_AT: usize = 4 * PORT_COUNT;

pub const TEST_COUNT: usize = 15;

pub const COUNTER_COUNT: usize = TESTS_AT + TEST_COUNT;

// The tests in the order of the lines.
pub const TEST_ORDER: [u8; TEST_COUNT] = [1, 2, 3, 4, 5, 6, 7, 8, 9, 10, 11, 15, 12, 16, 13];

// ---- what an answer says

// Whether a port is in a set.
fn in_set(ports: u16, port: usize) -> bool
    ensures { result ≡ in_set ports port }
{
    port < PORT_COUNT && ports >> port & 1 == 1
}

// The bytes of what leaves by a port.
#[tactic(auto, unfolding(crate::specs::Counts::sent_by))]
fn sent_by(port: usize, verdict: Verdict) -> u64
    ensures { result ≡ sent_by port verdict }
{
    match verdict {
        Verdict::Forward { port: by, length } if usize::from(by) == port => length as u64,
        Verdict::Spread { ports, length } if in_set(ports, port) => length as u64,
        _ => 0,
    }
}

#[tactic(auto, unfolding(crate::specs::Counts::leaving_by))]
fn leaving_by(port: usize, answer: Answer) -> u64
    ensures { result ≡ leaving_by port answer }
{
    match answer {
        Answer::Judged(verdict) => sent_by(port, verdict),
        Answer::Refused(_) => 0,
    }
}

// The test that dropped the packet, 0 where it wasn't dropped.
#[tactic(auto, unfolding(crate::specs::Counts::test_of, crate::specs::Counts::verdict_test))]
fn test_of(answer: Answer) -> u8
    ensures { result ≡ test_of answer }
{
    match answer {
        Answer::Judged(Verdict::Drop(reason)) => relay::reason_number(reason),
        _ => 0,
    }
}

#[tactic(auto, unfolding(crate::specs::Counts::is_accepted))]
fn is_accepted(answer: Answer) -> bool
    ensures { result ≡ is_accepted answer }
{
    matches!(answer, Answer::Judged(_))
}

// ---- what an entry adds, that came by a port and was so answered

fn accepted_on(port: usize, came: u8, answer: Answer) -> bool
    ensures { result ≡ (is_accepted answer and nat_eq came port) }
{
    is_accepted(answer) && usize::from(came) == port
}

// An amount, if the packet was accepted on the port.
fn amount_on(port: usize, came: u8, answer: Answer, amount: u64) -> u64
    ensures { result ≡ (is_accepted answer and nat_eq came port then amount otherwise 0) }
{
    if accepted_on(port, came, answer) {
        amount
    } else {
        0
    }
}

fn dropped_on(port: usize, came: u8, answer: Answer) -> u64
    ensures { result ≡ (not (test_of answer == 0) and is_accepted answer and nat_eq came port then 1 otherwise 0) }
{
    if test_of(answer) == 0 {
        return 0;
    }
    amount_on(port, came, answer, 1)
}

fn dropped_by(place: usize, answer: Answer) -> u64
    requires { place < test_count }
    ensures { result ≡ (test_of answer == slice_index test_order place then 1 otherwise 0) }
{
    u64::from(test_of(answer) == TEST_ORDER[place])
}

// ---- the counters

// What the entry adds to a counter.
fn counted_at(counter: usize, came: u8, size: usize, answer: Answer) -> u64
    requires { counter < counter_count }
    ensures { result ≡ counted_at counter (record { port = came; size = size; answer = answer }) }
{
    if counter < BYTES_IN_AT {
        return amount_on(counter, came, answer, 1);
    }
    if counter < BYTES_OUT_AT {
        return amount_on(counter - BYTES_IN_AT, came, answer, size as u64);
    }
    if counter < DROPPED_AT {
        return leaving_by(counter - BYTES_OUT_AT, answer);
    }
    if counter < TESTS_AT {
        return dropped_on(counter - DROPPED_AT, came, answer);
    }
    dropped_by(counter - TESTS_AT, answer)
}

// The entry added to each counter, modulo 2^64. A survey's counters never reach that.
pub fn add_one(counts: &mut [u64; COUNTER_COUNT], came: u8, size: usize, answer: Answer)
    ensures { counts.new ≡ add_one counts.old (record { port = came; size = size; answer = answer }) }
{
    for counter in 0..COUNTER_COUNT {
        let amount = counted_at(counter, came, size, answer);
        counts[counter] = counts[counter].wrapping_add(amount);
    }
}
