// Ordinary proofs: tests 6, 8, 12 and 16.
ghost use Rattle.std.specs.Prelude.{◌≡◌, true, false, ◌<◌, length};
ghost use Rattle.packet.specs.Header.{is_proof, of_kind_link};
ghost use Rattle.packet.specs.Read.{header_of};
ghost use Rattle.numbers.specs.Numbers.{return_count};
ghost use Rattle.tables.specs.Places.{table_size};
ghost use Rattle.tables.specs.Layout.{relay_of};
ghost use Rattle.plan.specs.Decided.{CanJudge, return_at, onward_on};
ghost use Rattle.plan.specs.Kinds.{returning};

use super::leaving::leave;
use super::{Arrived, Decision};
use rules::{Blocked, Reason};

// A proof for the return record at a place, which came in by a port: tests 8, 12 and 16.
#[tactic(auto, using(outgoing::proofs::Steps::joined), unfolding(crate::specs::Kinds::returning))]
fn receipt(tables: &[u8], packet: &[u8], place: usize, port: u8) -> Decision
    requires { (length tables.now ≡ table_size) × (place < return_count) }
    ensures { result ≡ returning (relay_of tables.now) packet.now port
        (return_at tables.now place) place }
{
    if port != lookup::return_leaving(tables, place) {
        return Decision::Drop(Reason::WrongSide);
    }
    let arrival = lookup::return_arrival(tables, place);
    leave(
        tables,
        arrival,
        packet.len(),
        Decision::Receipt {
            place,
            port: arrival,
        },
    )
}

#[tactic(auto, using(crate::proofs::ReturnLaws::return_steps))]
pub fn decide_proof(tables: &[u8], packet: &[u8], arrived: Arrived) -> Decision
    requires { CanJudge packet.now tables.now × (of_kind_link (header_of packet.now) ≡ false)
        × (is_proof (header_of packet.now) ≡ true) }
    ensures { result ≡ onward_on packet.now arrived tables.now }
{
    let destination = packet::parts_of(packet).destination;
    let Some(place) = lookup::return_place(tables, destination, arrived.clock) else {
        return Decision::Drop(Reason::NoWayOn(Blocked::NoReturn));
    };
    receipt(tables, packet, place, arrived.port)
}
