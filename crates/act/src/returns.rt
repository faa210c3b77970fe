// Return records: made by data that is forwarded, and emptied by an ordinary proof.
ghost use Rattle.std.specs.Prelude.{◌≡◌, true, ◌<◌, length};
ghost use Rattle.numbers.specs.Numbers.{clock_limit};
ghost use Rattle.tables.specs.Layout.{well_formed};
ghost use Rattle.plan.specs.declared.Decision.TheVariants.{Receipt};
ghost use Rattle.act.specs.Stored.{return_put};
ghost use Rattle.act.specs.Acted.{CanCarryOut, CarriesOut};

use numbers::RETURN_LIFETIME;
use plan::Arrived;
use rules::Verdict;

// Puts a return record in the next ring place, its key the first 16 of the hash, and empties any other live one of that
// key.
pub fn put_return(tables: &mut [u8], arrival: u8, leaving: u8, hash: [u8; 32], clock: u64)
    requires { (well_formed tables.old ≡ true) × (clock < clock_limit) }
    ensures { tables.new ≡ return_put tables.old arrival leaving hash clock }
{
    let key = octets::address_at(&hash, 0);
    let place = update::next_return(tables);
    update::empty_returns(tables, key, clock);
    update::put_return(
        tables,
        place,
        key,
        arrival,
        leaving,
        clock + RETURN_LIFETIME,
    );
}

// An ordinary proof by the return record at a place: forwarded by its arrival port, and the record is emptied.
pub fn receipt(
    packet: &[u8],
    arrived: Arrived,
    place: usize,
    port: u8,
    tables: &mut [u8],
    output: &mut [u8],
) -> Verdict
    requires { CanCarryOut packet.now arrived tables.old output.old (Receipt place port) }
    ensures { CarriesOut packet.now arrived tables.old output.old
        result tables.new output.new }
{
    let length = outgoing::carry(packet, output);
    update::empty_return(tables, place);
    Verdict::Forward { port, length }
}
