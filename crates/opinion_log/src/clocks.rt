// The last accepted clock.
ghost use Rattle.std.specs.Prelude.{◌≡◌, ◌≤◌};
ghost use Rattle.history.specs.Known.{Known};
ghost use Rattle.history.specs.After.{after};
ghost use Rattle.history.specs.Opinion.{list_limit};
ghost use Rattle.opinion_log.specs.Log.{known_in};
ghost use Rattle.opinion_log.specs.Steps.{call_of};

use super::log::{Entry, entry_at};
use super::places::LOG_SIZE;

// After one more entry: packets and marks set it.
fn clock_after(call: Entry, before: u64) -> u64
    ensures { (k : Known) → k.clock ≡ before → (after (call_of call.entry) k).clock ≡ result }
{
    match call {
        Entry::Came(_, arrived) => arrived.clock,
        Entry::Marks(_, clock) => clock,
        _ => before,
    }
}

// After the first n entries.
pub fn last_clock(log: &[u8; LOG_SIZE], n: usize) -> u64
    requires { n ≤ list_limit }
    ensures { result ≡ (known_in log.now n).clock }
{
    let mut clock = 0;
    for i in 0..n {
        clock = clock_after(entry_at(log, i), clock);
    }
    clock
}
