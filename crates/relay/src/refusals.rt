// The refusals of a packet call.
ghost use Rattle.std.specs.Prelude.{◌≡◌, MatchResult};
ghost use Rattle.numbers.specs.Refusals.{number_of};
ghost use Rattle.relay.specs.Refusal.{packet_refusal_on, Accepts};

use numbers::{CLOCK_LIMIT, Refusal};
use packet::LEAST_OUTPUT;
use plan::Arrived;

// A packet that is accepted, as it came, or why it isn't: rows 7, 6, 4, 5, and then reading's 1, 2, 3 and 1, at the
// arrival port's size.
#[tactic(auto, using(crate::proofs::RefusalLaws::refusal_steps))]
pub fn accepted(
    packet: &[u8],
    port: u64,
    clock: u64,
    signed: bool,
    tables: &[u8],
    room: usize,
) -> Result<Arrived, Refusal>
    ensures { MatchResult result (λ m. Accepts packet.now port clock signed tables.now room m)
        (λ refusal. number_of refusal ≡ packet_refusal_on packet.now port clock tables.now room) }
{
    if !tables::check(tables) {
        return Err(Refusal::Tables);
    }
    if room < LEAST_OUTPUT {
        return Err(Refusal::Output);
    }
    if !lookup::port_on(tables, port) {
        return Err(Refusal::ArrivalPort);
    }
    if clock >= CLOCK_LIMIT || clock < lookup::last_clock(tables) {
        return Err(Refusal::Clock);
    }
    packet::check(packet, lookup::port_size(tables, port))?;
    Ok(Arrived {
        port: port as u8,
        clock,
        signed,
    })
}
