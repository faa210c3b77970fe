// Announces: tests 9, 10, 11, 15 and 13.
ghost use Rattle.std.specs.Prelude.{◌≡◌, true, false, ◌≤◌, length};
ghost use Rattle.packet.specs.Header.{is_announce};
ghost use Rattle.packet.specs.Read.{header_of, parts_of, payload};
ghost use Rattle.packet.specs.Places.{blob_end};
ghost use Rattle.packet.specs.Announce.{emission_of};
ghost use Rattle.rules.specs.Tests.{bad_form};
ghost use Rattle.tables.specs.Places.{table_size};
ghost use Rattle.tables.specs.Layout.{relay_of};
ghost use Rattle.plan.specs.Decided.{arrival_of, CanRead, CanJudge, CanKnow, path_at, rated_on, onward_on};
ghost use Rattle.plan.specs.Kinds.{new_path, worse_than, known_path};

use super::marked::revives;
use super::{Arrived, Decision};
use packet::places::HOPS_AT;
use rules::{Rated, Reason};

// A new path: test 13.
#[tactic(auto, using(outgoing::proofs::Steps::joined, lookup::proofs::Found::answers), unfolding(crate::specs::Kinds::new_path))]
fn new_path(tables: &[u8], clock: u64) -> Decision
    requires { length tables.now ≡ table_size }
    ensures { result ≡ new_path clock (relay_of tables.now) }
{
    let Some(place) = lookup::free_path(tables, clock) else {
        return Decision::Drop(Reason::NoRoom);
    };
    Decision::Announce {
        place,
        known: false,
    }
}

// Test 11, of the path at a place and an announce with this blob.
#[tactic(auto, using(crate::proofs::AnnounceLaws::knowing), unfolding(crate::specs::Kinds::worse_than))]
fn not_better(tables: &[u8], packet: &[u8], place: usize, blob: [u8; 10]) -> bool
    requires { CanRead packet.now tables.now × CanKnow tables.now place }
    ensures { result ≡ worse_than (emission_of blob) (parts_of packet.now).hops
        (path_at tables.now place) }
{
    packet::emission(blob) <= lookup::greatest_emission(tables, place)
        && lookup::path_hops(tables, place) <= packet[HOPS_AT]
}

// What the rate rule says of an announce at a clock for the path at a place.
#[tactic(auto, using(crate::proofs::AnnounceLaws::knowing))]
pub fn rate_at(tables: &[u8], place: usize, clock: u64) -> Rated
    requires { (length tables.now ≡ table_size) × CanKnow tables.now place }
    ensures { result ≡ rated_on tables.now place clock }
{
    let settings = lookup::rate_settings(tables);
    let entry = lookup::path_rate(tables, place);
    rate::rule(settings, clock, entry)
}

// The known path at a place: tests 10, 11 and 15, unless the announce revives it.
#[tactic(auto, using(crate::proofs::AnnounceLaws::known_steps))]
fn known_path(tables: &[u8], packet: &[u8], arrived: Arrived, place: usize) -> Decision
    requires { CanRead packet.now tables.now × CanKnow tables.now place
        × (blob_end ≤ length (payload packet.now)) }
    ensures { result ≡ known_path (relay_of tables.now) (arrival_of packet.now arrived)
        (path_at tables.now place) place }
{
    let blob = packet::blob(packet::payload(packet));
    if revives(tables, place, blob) {
        return Decision::Announce { place, known: true };
    }
    if lookup::holds_blob(tables, place, blob) {
        return Decision::Drop(Reason::Replay);
    }
    if not_better(tables, packet, place, blob) {
        return Decision::Drop(Reason::NotBetter);
    }
    let rated = rate_at(tables, place, arrived.clock);
    if rated.dropped {
        return Decision::Drop(Reason::RateLimited);
    }
    Decision::Announce { place, known: true }
}

#[tactic(auto, using(crate::proofs::AnnounceLaws::announce_steps))]
pub fn decide_announce(tables: &[u8], packet: &[u8], arrived: Arrived) -> Decision
    requires { CanJudge packet.now tables.now × (bad_form packet.now ≡ false)
        × (is_announce (header_of packet.now) ≡ true) }
    ensures { result ≡ onward_on packet.now arrived tables.now }
{
    if !arrived.signed {
        return Decision::Drop(Reason::NotSigned);
    }
    let destination = packet::parts_of(packet).destination;
    match lookup::path_place(tables, destination, arrived.clock) {
        Some(place) => known_path(tables, packet, arrived, place),
        None => new_path(tables, arrived.clock),
    }
}
