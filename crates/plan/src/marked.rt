// Announces for a path that the host has marked unresponsive.
ghost use Rattle.std.specs.Prelude.{◌≡◌, false, length};
ghost use Rattle.packet.specs.Announce.{emission_of};
ghost use Rattle.rules.specs.Exempt.{exempt};
ghost use Rattle.rules.specs.Tests.{for_marked_path};
ghost use Rattle.rules.specs.Writes.{already_live};
ghost use Rattle.tables.specs.Places.{table_size};
ghost use Rattle.plan.specs.Decided.{arrival_of, CanRead, CanKnow, hash_live, seen, path_at};
ghost use Rattle.plan.specs.Kinds.{revived_by};

use super::Arrived;

// Whether the packet is an announce of kind single whose destination has a live path, and that is marked.
#[tactic(auto, using(outgoing::proofs::Steps::reading, crate::proofs::MarkedLaws::marked_at, crate::proofs::MarkedLaws::marked_nowhere), unfolding(rules::specs::Tests::for_marked_path))]
pub fn for_marked_path(tables: &[u8], packet: &[u8], arrived: Arrived) -> bool
    requires { CanRead packet.now tables.now }
    ensures { result ≡ for_marked_path (seen arrived tables.now)
        (arrival_of packet.now arrived) }
{
    let header = packet[0];
    if !(packet::is_announce(header) && packet::of_kind_single(header)) {
        return false;
    }
    let destination = packet::parts_of(packet).destination;
    let Some(place) = lookup::path_place(tables, destination, arrived.clock) else {
        return false;
    };
    lookup::path_notes(tables, place).marked
}

// Whether the packet is such an announce, and its hash is live.
#[tactic(auto, using(crate::proofs::MarkedLaws::live_steps))]
pub fn already_live(tables: &[u8], packet: &[u8], arrived: Arrived, live: bool) -> bool
    requires { CanRead packet.now tables.now × (exempt packet.now ≡ false)
        × (live ≡ hash_live (seen arrived tables.now) (arrival_of packet.now arrived)) }
    ensures { result ≡ already_live (seen arrived tables.now) (arrival_of packet.now arrived) }
{
    live && for_marked_path(tables, packet, arrived)
}

// Whether an announce with this blob revives the path at a place: it is marked, and holds none that was emitted later.
#[tactic(auto, using(crate::proofs::AnnounceLaws::knowing), unfolding(crate::specs::Kinds::revived_by))]
pub fn revives(tables: &[u8], place: usize, blob: [u8; 10]) -> bool
    requires { (length tables.now ≡ table_size) × CanKnow tables.now place }
    ensures { result ≡ revived_by (emission_of blob) (path_at tables.now place) }
{
    lookup::path_notes(tables, place).marked
        && lookup::greatest_emission(tables, place) <= packet::emission(blob)
}
