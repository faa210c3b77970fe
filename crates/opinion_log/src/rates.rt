// The announce rate.
ghost use Rattle.std.specs.Prelude.{true, ◌≡◌, ◌≤◌};
ghost use Rattle.rules.specs.Refusals.{rate_settings_ok};
ghost use Rattle.history.specs.Known.{Known};
ghost use Rattle.history.specs.After.{after};
ghost use Rattle.history.specs.Opinion.{list_limit};
ghost use Rattle.opinion_log.specs.Log.{known_in};
ghost use Rattle.opinion_log.specs.Steps.{call_of, Fine};

use super::log::{Entry, entry_at};
use super::places::LOG_SIZE;
use rules::RateSettings;

// Its settings after one more entry.
fn rate_after(call: Entry, before: RateSettings) -> RateSettings
    requires { Fine call × (rate_settings_ok before ≡ true) }
    ensures { ((k : Known) → k.rate ≡ before → (after (call_of call.entry) k).rate ≡ result)
        × (rate_settings_ok result ≡ true) }
{
    match call {
        Entry::SetsRate(rate) => rate,
        _ => before,
    }
}

// .. and after the first n entries.
pub fn rate_at(log: &[u8; LOG_SIZE], n: usize) -> RateSettings
    requires { n ≤ list_limit }
    ensures { (result ≡ (known_in log.now n).rate) × (rate_settings_ok result ≡ true) }
{
    let mut rate = RateSettings {
        target: 0,
        grace: 0,
        penalty: 0,
    };
    for i in 0..n {
        rate = rate_after(entry_at(log, i), rate);
    }
    rate
}
