// Packets of kind link: tests 6, 7, 8, 9, 12 and 16.
ghost use Rattle.std.specs.Prelude.{◌≡◌, true, false, length};
ghost use Rattle.packet.specs.Header.{is_announce, of_kind_link};
ghost use Rattle.packet.specs.Read.{header_of, longest_packet, reads};
ghost use Rattle.rules.specs.Tests.{bad_form, from_answering_side, from_asking_side};
ghost use Rattle.tables.specs.Places.{table_size};
ghost use Rattle.tables.specs.Layout.{relay_of};
ghost use Rattle.plan.specs.Decided.{arrival_of, CanRead, CanJudge, onward_on};
ghost use Rattle.plan.specs.Kinds.{carried, proving, carrying};

use super::leaving::leave;
use super::{Arrived, Decision};
use forms::is_link_proof;
use packet::places::HOPS_AT;
use rules::{Blocked, Link, Reason};

// From the answering port with hops = remaining.
#[tactic(auto, using(outgoing::proofs::Steps::reading), unfolding(rules::specs::Tests::from_answering_side))]
fn from_answering_side(link: Link, packet: &[u8], arrived: Arrived) -> bool
    requires { reads longest_packet packet.now ≡ true }
    ensures { result ≡ from_answering_side link (arrival_of packet.now arrived) }
{
    arrived.port == link.answering && packet[HOPS_AT] == link.remaining.0
}

// From the asking port with hops = taken.
#[tactic(auto, using(outgoing::proofs::Steps::reading), unfolding(rules::specs::Tests::from_asking_side))]
fn from_asking_side(link: Link, packet: &[u8], arrived: Arrived) -> bool
    requires { reads longest_packet packet.now ≡ true }
    ensures { result ≡ from_asking_side link (arrival_of packet.now arrived) }
{
    arrived.port == link.asking && packet[HOPS_AT] == link.taken.0
}

// The link at a place, by a port: tests 12 and 16.
#[tactic(auto, using(outgoing::proofs::Steps::joined), unfolding(crate::specs::Kinds::carried))]
fn carry(tables: &[u8], packet: &[u8], place: usize, port: u8) -> Decision
    requires { length tables.now ≡ table_size }
    ensures { result ≡ carried (relay_of tables.now) packet.now port place }
{
    leave(
        tables,
        port,
        packet.len(),
        Decision::Carry { link: place, port },
    )
}

// A link proof, of the link at a place: tests 7, 8, 9, 12 and 16.
#[tactic(auto, using(outgoing::proofs::Steps::joined), unfolding(crate::specs::Kinds::proving))]
fn prove(tables: &[u8], packet: &[u8], arrived: Arrived, link: Link, place: usize) -> Decision
    requires { CanRead packet.now tables.now }
    ensures { result ≡ proving (relay_of tables.now) (arrival_of packet.now arrived)
        link place }
{
    if link.proved {
        return Decision::Drop(Reason::AlreadyKnown);
    }
    if !from_answering_side(link, packet, arrived) {
        return Decision::Drop(Reason::WrongSide);
    }
    if !arrived.signed {
        return Decision::Drop(Reason::NotSigned);
    }
    carry(tables, packet, place, link.asking)
}

// Any other packet of the link at a place: tests 6, 8, 12 and 16.
#[tactic(auto, using(outgoing::proofs::Steps::joined), unfolding(crate::specs::Kinds::carrying))]
fn pass(tables: &[u8], packet: &[u8], arrived: Arrived, link: Link, place: usize) -> Decision
    requires { CanRead packet.now tables.now }
    ensures { result ≡ carrying (relay_of tables.now) (arrival_of packet.now arrived)
        link place }
{
    if !link.proved {
        return Decision::Drop(Reason::NoWayOn(Blocked::NotProved));
    }
    if from_answering_side(link, packet, arrived) {
        return carry(tables, packet, place, link.asking);
    }
    if from_asking_side(link, packet, arrived) {
        return carry(tables, packet, place, link.answering);
    }
    Decision::Drop(Reason::WrongSide)
}

#[tactic(auto, using(crate::proofs::LinkLaws::link_steps))]
pub fn decide_of_link(tables: &[u8], packet: &[u8], arrived: Arrived) -> Decision
    requires { CanJudge packet.now tables.now × (bad_form packet.now ≡ false)
        × (is_announce (header_of packet.now) ≡ false) × (of_kind_link (header_of packet.now) ≡ true) }
    ensures { result ≡ onward_on packet.now arrived tables.now }
{
    let destination = packet::parts_of(packet).destination;
    let Some(place) = lookup::link_place(tables, destination, arrived.clock) else {
        return Decision::Drop(Reason::NoWayOn(Blocked::NoLink));
    };
    let link = lookup::link_at(tables, place);
    if is_link_proof(packet) {
        return prove(tables, packet, arrived, link, place);
    }
    pass(tables, packet, arrived, link, place)
}
