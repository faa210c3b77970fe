// Renumbering: the ports get other numbers, by a one-to-one map of 0..15.
// Entry point: renumber. A refusal changes no byte.
#![tactic(auto)]

mod moved;
mod renamed;

ghost use Rattle.numbers.specs.Refusals.{refused_number};
ghost use Rattle.tables.specs.Called.{Returns};
ghost use Rattle.renumbering.specs.Calls.{renumber_on};

use maps::one_to_one;
use moved::moved_ports;
use numbers::Refusal;
use renamed::{rename_links, rename_paths, rename_returns};
use tables::check_tables;
use tables::places::PORTS_AT;

// Replaces every stored port, expired records' too, by its image, and moves each port's settings with it.
pub fn renumber(tables: &mut [u8], map: [u8; 16]) -> Result<(), Refusal>
    ensures { Returns (renumber_on tables.old map) (refused_number result) tables.new }
{
    check_tables(tables)?;
    if !one_to_one(&map) {
        return Err(Refusal::Map);
    }
    let ports = moved_ports(tables, &map);
    rename_paths(tables, &map);
    rename_links(tables, &map);
    rename_returns(tables, &map);
    octets::copy_at(tables, PORTS_AT, &ports);
    Ok(())
}
