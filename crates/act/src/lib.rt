// What is done with an accepted packet once it is decided, one function for each record that is written, and one stamp.
// Entry points: none. Every function is a helper of the packet call: the caller shows that the packet is accepted, and
// what was decided.
#![tactic(auto)]

mod announces;
mod drops;
mod links;
mod paths;
mod returns;
mod stamps;

ghost use Rattle.std.specs.Prelude.{◌≡◌};
ghost use Rattle.plan.specs.Decided.{arrival_of, used_hash, hash_live, seen};
ghost use Rattle.act.specs.Acted.{CanCarryOut, CarriesOut, Acts};

use announces::announce;
use drops::drop_packet;
use links::carry;
use paths::{request, send};
use plan::{Arrived, Decision};
use returns::receipt;
use rules::Verdict;
use stamps::{remembers, stamp};

// Carries out what was decided of an accepted packet: writes its record and what leaves, all but the stamp. The hash is
// used by `send` alone, which no exempt packet reaches.
fn carry_out(
    packet: &[u8],
    arrived: Arrived,
    hash: [u8; 32],
    decision: Decision,
    tables: &mut [u8],
    output: &mut [u8],
) -> Verdict
    requires { CanCarryOut packet.now arrived tables.old output.old decision
        × (hash ≡ used_hash packet.now) }
    ensures { CarriesOut packet.now arrived tables.old output.old
        result tables.new output.new }
{
    match decision {
        Decision::Drop(reason) => drop_packet(packet, arrived, reason, tables),
        Decision::Deliver => Verdict::Deliver,
        Decision::Announce { place, known } => {
            announce(packet, arrived, place, known, tables, output)
        }
        Decision::Data { path } => send(packet, arrived, hash, path, tables, output),
        Decision::Request { path, place, id } => {
            request(packet, arrived, path, place, id, tables, output)
        }
        Decision::Carry { link, port } => carry(packet, arrived, link, port, tables, output),
        Decision::Receipt { place, port } => {
            receipt(packet, arrived, place, port, tables, output)
        }
    }
}

// Does what was decided of an accepted packet, whose hash is live or not, and stamps the tables.
pub fn act(
    packet: &[u8],
    arrived: Arrived,
    hash: [u8; 32],
    live: bool,
    decision: Decision,
    tables: &mut [u8],
    output: &mut [u8],
) -> Verdict
    requires { CanCarryOut packet.now arrived tables.old output.old decision
        × (hash ≡ used_hash packet.now)
        × (live ≡ hash_live (seen arrived tables.old) (arrival_of packet.now arrived)) }
    ensures { Acts packet.now arrived tables.old output.old
        result tables.new output.new }
{
    let place = update::next_hash(tables);
    let remembered = remembers(tables, packet, arrived, live, decision);
    let verdict = carry_out(packet, arrived, hash, decision, tables, output);
    stamp(tables, place, remembered, hash, arrived.clock);
    verdict
}
