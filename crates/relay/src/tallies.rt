// The tally of answers.
ghost use Rattle.std.specs.Prelude.{◌≡◌};
ghost use Rattle.rules.specs.Calls.{counted as counted_by};

use rules::{Tally, Verdict};

// One more accepted packet, of this verdict. Each counter goes round at 2^32.
#[tactic(auto, unfolding(rules::specs::Calls::counted, rules::specs::Calls::up))]
pub fn counted(verdict: Verdict, tally: Tally) -> Tally
    ensures { result ≡ counted_by verdict tally }
{
    let t = Tally {
        total: tally.total.wrapping_add(1),
        ..tally
    };
    match verdict {
        Verdict::Drop(_) => Tally {
            dropped: t.dropped.wrapping_add(1),
            ..t
        },
        Verdict::Deliver => Tally {
            delivered: t.delivered.wrapping_add(1),
            ..t
        },
        Verdict::Forward { .. } => Tally {
            forwarded: t.forwarded.wrapping_add(1),
            ..t
        },
        Verdict::Spread { .. } => Tally {
            spread: t.spread.wrapping_add(1),
            ..t
        },
        Verdict::Kept => Tally {
            kept: t.kept.wrapping_add(1),
            ..t
        },
    }
}
