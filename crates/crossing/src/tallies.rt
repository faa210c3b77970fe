// A tally as hosts lend it: six numbers.
ghost use Rattle.std.specs.Prelude.{◌≡◌};
ghost use Rattle.crossing.specs.Tallies.{tally_in, tally_numbers};

use rules::Tally;

// Kept: functions and no `From`, since both types are other crates'.
const TALLY_COUNT: usize = 6;

// The tally that six numbers are.
#[tactic(auto, unfolding(crate::specs::Tallies::tally_in))]
pub fn tally_in(counts: [u32; TALLY_COUNT]) -> Tally
    ensures { result ≡ tally_in counts }
{
    let [total, dropped, delivered, forwarded, spread, kept] = counts;
    Tally {
        total,
        dropped,
        delivered,
        forwarded,
        spread,
        kept,
    }
}

// A tally as six numbers.
#[tactic(auto, unfolding(crate::specs::Tallies::tally_numbers))]
pub fn tally_numbers(tally: Tally) -> [u32; TALLY_COUNT]
    ensures { result ≡ tally_numbers tally }
{
    let Tally {
        total,
        dropped,
        delivered,
        forwarded,
        spread,
        kept,
    } = tally;
    [total, dropped, delivered, forwarded, spread, kept]
}
