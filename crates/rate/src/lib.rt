// Document 02, Wish 5: the rate rule, over numbers alone. What it reads stands in the tables: crates/plan.
// Entry points: none. `rule` is a helper of the packet call: the caller shows refusal 7's bounds.
#![tactic(auto)]

ghost use Rattle.std.specs.Prelude.{◌≡◌, true};
ghost use Rattle.rules.specs.Rate.{one_more, violated as violated_by, rated};
ghost use Rattle.rules.specs.Refusals.{rate_settings_ok, rate_entry_ok};

use rules::{RateEntry, RateSettings, Rated};

// A violation: it counts, and above the grace it blocks.
fn violated(settings: RateSettings, entry: RateEntry) -> Rated
    requires { (rate_settings_ok settings ≡ true) × (rate_entry_ok entry ≡ true) }
    ensures { result ≡ violated_by settings entry (one_more entry.violations) }
{
    let violations = entry.violations.saturating_add(1);
    if settings.grace < u64::from(violations) {
        return Rated {
            dropped: true,
            violations,
            blocked_until: entry.last + settings.target + settings.penalty,
        };
    }
    Rated {
        dropped: false,
        violations,
        blocked_until: entry.blocked_until,
    }
}

// What the rule says of an announce at a clock, by the settings and its path's entry.
pub fn rule(settings: RateSettings, clock: u64, entry: RateEntry) -> Rated
    requires { (rate_settings_ok settings ≡ true) × (rate_entry_ok entry ≡ true) }
    ensures { result ≡ rated settings clock entry }
{
    if clock < entry.blocked_until {
        return Rated {
            dropped: true,
            violations: entry.violations,
            blocked_until: entry.blocked_until,
        };
    }
    if clock < entry.last + settings.target {
        return violated(settings, entry);
    }
    Rated {
        dropped: false,
        violations: entry.violations.saturating_sub(1),
        blocked_until: entry.blocked_until,
    }
}
