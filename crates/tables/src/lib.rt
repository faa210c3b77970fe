// The relay's tables as bytes that a caller lends: their layout, and refusal 7.
// Entry points: check, check_tables. The other functions are helpers. docs/LAYOUT.md draws the layout.
#![tactic(auto)]

pub mod fields;
pub mod places;
mod plain_check;
mod record_check;
mod ring_check;
mod section_check;

ghost use Rattle.std.specs.Prelude.{◌≡◌, true, false, MatchResult};
ghost use Rattle.numbers.specs.declared.refusal.Refusal.TheVariants.{Tables};
ghost use Rattle.tables.specs.Layout.{well_formed};

use numbers::Refusal;
use places::{LINKS_AT, TABLE_SIZE};
use section_check::paths_ok;
pub use section_check::{back_ok, front_ok, paths_each};

// Whether the tables are well formed: refusal 7 is given exactly when they are not. Ends on any bytes of any length.
pub fn check(tables: &[u8]) -> bool
    ensures { result ≡ well_formed tables.now }
{
    tables.len() == TABLE_SIZE && front_ok(tables) && paths_ok(tables) && back_ok(tables, LINKS_AT)
}

// The same as a call gives it up: refusal 7, or none.
pub fn check_tables(tables: &[u8]) -> Result<(), Refusal>
    ensures { MatchResult result (λ _. well_formed tables.now ≡ true)
        (λ refusal. (refusal ≡ Tables) × (well_formed tables.now ≡ false)) }
{
    if check(tables) {
        Ok(())
    } else {
        Err(Refusal::Tables)
    }
}
