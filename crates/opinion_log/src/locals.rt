// The local addresses.
ghost use Rattle.std.specs.Prelude.{◌≡◌, ◌≤◌, ◌<◌, ◌+◌};
ghost use Rattle.history.specs.Known.{Known};
ghost use Rattle.history.specs.After.{after};
ghost use Rattle.history.specs.Opinion.{list_limit};
ghost use Rattle.opinion_log.specs.Log.{known_in};
ghost use Rattle.opinion_log.specs.Steps.{call_of};

use super::log::{Entry, entry_at};
use super::places::LOG_SIZE;

// Whether an address is local after one more entry.
fn local_after(call: Entry, address: [u8; 16], before: bool) -> bool
    ensures { (k : Known) → k.local address ≡ before → (after (call_of call.entry) k).local address ≡ result }
{
    match call {
        Entry::Adds(added) if added == address => true,
        Entry::Removes(removed) if removed == address => false,
        _ => before,
    }
}

// .. and after the first n entries.
pub fn is_local(log: &[u8; LOG_SIZE], n: usize, address: [u8; 16]) -> bool
    requires { n ≤ list_limit }
    ensures { result ≡ (known_in log.now n).local address }
{
    let mut known = false;
    for i in 0..n {
        known = local_after(entry_at(log, i), address, known);
    }
    known
}

// How many are local after one more entry.
fn number_after(call: Entry, before: usize) -> usize
    requires { before < list_limit }
    ensures { ((k : Known) → k.locals ≡ before → (after (call_of call.entry) k).locals ≡ result) × (result ≤ before + 1) }
{
    match call {
        Entry::Adds(_) => before + 1,
        Entry::Removes(_) => before.saturating_sub(1),
        _ => before,
    }
}

// How many addresses are local after the first n entries.
pub fn local_number(log: &[u8; LOG_SIZE], n: usize) -> usize
    requires { n ≤ list_limit }
    ensures { result ≡ (known_in log.now n).locals }
{
    let mut number = 0;
    for i in 0..n {
        number = number_after(entry_at(log, i), number);
    }
    number
}
