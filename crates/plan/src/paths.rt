// Data and link requests by a path: tests 6, 7, 12, 16 and 13.
ghost use Rattle.std.specs.Prelude.{◌≡◌, false, ◌<◌, length};
ghost use Rattle.packet.specs.Header.{is_announce, is_proof, of_kind_link};
ghost use Rattle.packet.specs.Read.{header_of};
ghost use Rattle.numbers.specs.Numbers.{path_count};
ghost use Rattle.rules.specs.View.{expired_path};
ghost use Rattle.rules.specs.Ways.{no_path};
ghost use Rattle.tables.specs.Places.{table_size};
ghost use Rattle.tables.specs.Layout.{relay_of};
ghost use Rattle.plan.specs.Decided.{arrival_of, CanRead, CanJudge, path_at, onward_on};
ghost use Rattle.plan.specs.Kinds.{leaving_by, linking, requesting};

use super::leaving::leave;
use super::{Arrived, Decision};
use rules::{Blocked, Reason};

// What was decided, by the path at a place: tests 12 and 16.
#[tactic(auto, using(outgoing::proofs::Steps::joined))]
fn leave_by(tables: &[u8], packet: &[u8], place: usize, decision: Decision) -> Decision
    requires { (length tables.now ≡ table_size) × (place < path_count) }
    ensures { result ≡ leaving_by (relay_of tables.now) (path_at tables.now place)
        packet.now decision }
{
    let port = lookup::path_port(tables, place);
    let hops = lookup::path_hops(tables, place);
    leave(tables, port, outgoing::path_length(packet, hops), decision)
}

// A new link, by the path at a place: test 13.
#[tactic(auto, using(outgoing::proofs::Steps::joined, lookup::proofs::Found::answers), unfolding(crate::specs::Kinds::linking))]
fn new_link(tables: &[u8], clock: u64, id: [u8; 16], place: usize) -> Decision
    requires { length tables.now ≡ table_size }
    ensures { result ≡ linking (relay_of tables.now) clock id place }
{
    let Some(free) = lookup::free_link(tables, clock) else {
        return Decision::Drop(Reason::NoRoom);
    };
    Decision::Request {
        path: place,
        place: free,
        id,
    }
}

// A link request by the path at a place: tests 7, 12, 16 and 13.
#[tactic(auto, using(outgoing::proofs::Steps::joined, crate::proofs::PathLaws::id_known), unfolding(crate::specs::Kinds::requesting))]
fn request(tables: &[u8], packet: &[u8], arrived: Arrived, place: usize) -> Decision
    requires { CanRead packet.now tables.now × (place < path_count) }
    ensures { result ≡ requesting (relay_of tables.now) (arrival_of packet.now arrived)
        (path_at tables.now place) place }
{
    let id = packet::link_id_of(packet);
    if lookup::link_place(tables, id, arrived.clock).is_some() {
        return Decision::Drop(Reason::AlreadyKnown);
    }
    leave_by(
        tables,
        packet,
        place,
        new_link(tables, arrived.clock, id, place),
    )
}

// Why a destination has no live path: its expired ones are looked for only here.
#[tactic(auto, using(crate::proofs::PathLaws::expired_there, crate::proofs::PathLaws::expired_none))]
fn no_path(tables: &[u8], destination: [u8; 16], clock: u64) -> Blocked
    requires { length tables.now ≡ table_size }
    ensures { result ≡ no_path (expired_path clock (relay_of tables.now) destination) }
{
    match lookup::expired_path(tables, destination, clock) {
        Some(time) => Blocked::OnlyExpired(time),
        None => Blocked::NoPath,
    }
}

#[tactic(auto, using(crate::proofs::PathLaws::path_steps))]
pub fn decide_by_path(tables: &[u8], packet: &[u8], arrived: Arrived) -> Decision
    requires { CanJudge packet.now tables.now × (is_announce (header_of packet.now) ≡ false)
        × (of_kind_link (header_of packet.now) ≡ false) × (is_proof (header_of packet.now) ≡ false) }
    ensures { result ≡ onward_on packet.now arrived tables.now }
{
    let header = packet[0];
    if !packet::type_two(header) {
        return Decision::Drop(Reason::NoWayOn(Blocked::NotAsking));
    }
    let destination = packet::parts_of(packet).destination;
    let Some(place) = lookup::path_place(tables, destination, arrived.clock) else {
        return Decision::Drop(Reason::NoWayOn(no_path(tables, destination, arrived.clock)));
    };
    if packet::is_data(header) {
        return leave_by(tables, packet, place, Decision::Data { path: place });
    }
    request(tables, packet, arrived, place)
}
