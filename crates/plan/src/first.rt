// Tests 1 to 5, with delivery at test 4's place.
ghost use Rattle.std.specs.Prelude.{◌≡◌};
ghost use Rattle.packet.specs.Read.{parts_of};
ghost use Rattle.rules.specs.View.{is_local};
ghost use Rattle.rules.specs.Tests.{not_ours, duplicate as is_duplicate, own_announce, delivered_here};
ghost use Rattle.tables.specs.Layout.{relay_of};
ghost use Rattle.plan.specs.Decided.{arrival_of, CanRead, used_hash, hash_live, seen};
ghost use Rattle.plan.specs.First.{first_tests};

use super::marked::for_marked_path;
use super::{Arrived, Decision};
use forms::{exempt, form_of};
use numbers::HOPS_LIMIT;
use packet::places::HOPS_AT;
use rules::Reason;

// Test 1.
#[tactic(auto, using(crate::proofs::FirstLaws::first_steps))]
pub fn not_ours(tables: &[u8], packet: &[u8], arrived: Arrived) -> bool
    requires { CanRead packet.now tables.now }
    ensures { result ≡ not_ours (seen arrived tables.now) (arrival_of packet.now arrived) }
{
    let header = packet[0];
    packet::type_two(header)
        && !packet::is_announce(header)
        && packet::parts_of(packet).relay != lookup::own_address(tables)
}

// Whether the packet's hash is live: test 2 asks, and so does what remembers it. An exempt packet's is not looked for.
#[tactic(auto, using(crate::proofs::FirstLaws::first_steps))]
pub fn hash_live(tables: &[u8], packet: &[u8], arrived: Arrived, hash: [u8; 32]) -> bool
    requires { CanRead packet.now tables.now × (hash ≡ used_hash packet.now) }
    ensures { result ≡ hash_live (seen arrived tables.now) (arrival_of packet.now arrived) }
{
    !exempt(packet) && lookup::hash_place(tables, hash, arrived.clock).is_some()
}

// Test 2. An announce for a marked path is no duplicate.
#[tactic(auto, using(crate::proofs::FirstLaws::first_steps))]
fn duplicate(tables: &[u8], packet: &[u8], arrived: Arrived, live: bool) -> bool
    requires { CanRead packet.now tables.now
        × (live ≡ hash_live (seen arrived tables.now) (arrival_of packet.now arrived)) }
    ensures { result ≡ is_duplicate (seen arrived tables.now) (arrival_of packet.now arrived) }
{
    live && !for_marked_path(tables, packet, arrived)
}

// Whether the packet's destination is local.
#[tactic(auto, using(crate::proofs::FirstLaws::first_steps))]
fn is_local(tables: &[u8], packet: &[u8]) -> bool
    requires { CanRead packet.now tables.now }
    ensures { result ≡ is_local (relay_of tables.now) (parts_of packet.now).destination }
{
    lookup::is_local(tables, packet::parts_of(packet).destination)
}

// Test 4.
#[tactic(auto, using(crate::proofs::FirstLaws::first_steps))]
fn own_announce(tables: &[u8], packet: &[u8], arrived: Arrived) -> bool
    requires { CanRead packet.now tables.now }
    ensures { result ≡ own_announce (seen arrived tables.now) (arrival_of packet.now arrived) }
{
    packet::is_announce(packet[0]) && is_local(tables, packet)
}

// Data and link requests to a local address, kind link excepted.
#[tactic(auto, using(crate::proofs::FirstLaws::first_steps))]
fn delivered_here(tables: &[u8], packet: &[u8], arrived: Arrived) -> bool
    requires { CanRead packet.now tables.now }
    ensures { result ≡ delivered_here (seen arrived tables.now)
        (arrival_of packet.now arrived) }
{
    let header = packet[0];
    (packet::is_data(header) || packet::is_link_request(header))
        && !packet::of_kind_link(header)
        && is_local(tables, packet)
}

#[tactic(auto, using(crate::proofs::FirstLaws::first_steps), unfolding(rules::specs::Tests::too_many_hops))]
pub fn first_tests(tables: &[u8], packet: &[u8], arrived: Arrived, live: bool) -> Option<Decision>
    requires { CanRead packet.now tables.now
        × (live ≡ hash_live (seen arrived tables.now) (arrival_of packet.now arrived)) }
    ensures { result ≡ first_tests (seen arrived tables.now) (arrival_of packet.now arrived) }
{
    if not_ours(tables, packet, arrived) {
        return Some(Decision::Drop(Reason::NotOurs));
    }
    if duplicate(tables, packet, arrived, live) {
        return Some(Decision::Drop(Reason::Duplicate));
    }
    if let Some(clause) = form_of(packet) {
        return Some(Decision::Drop(Reason::BadForm(clause)));
    }
    if own_announce(tables, packet, arrived) {
        return Some(Decision::Drop(Reason::OwnAnnounce));
    }
    if delivered_here(tables, packet, arrived) {
        return Some(Decision::Deliver);
    }
    if packet[HOPS_AT] >= HOPS_LIMIT {
        return Some(Decision::Drop(Reason::TooManyHops));
    }
    None
}
