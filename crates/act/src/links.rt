// Links: made by a link request that is forwarded, and renewed by each packet carried.
ghost use Rattle.std.specs.Prelude.{◌≡◌, true, ◌<◌, length};
ghost use Rattle.packet.specs.Read.{longest_packet, reads};
ghost use Rattle.packet.specs.Hash.{link_id};
ghost use Rattle.numbers.specs.Numbers.{path_count, clock_limit};
ghost use Rattle.rules.specs.Writes.{link_record, renewed_link};
ghost use Rattle.plan.specs.declared.Decision.TheVariants.{Carry};
ghost use Rattle.plan.specs.Decided.{arrival_of, CanRead, path_at};
ghost use Rattle.act.specs.Acted.{CanCarryOut, CarriesOut};

use numbers::{HOP_LIFETIME, PROVED_LIFETIME};
use packet::places::HOPS_AT;
use plan::Arrived;
use rules::{Link, RemainingHops, TakenHops, Verdict};

// The link that a request by the path at a place makes. It lives 6 × (remaining hops + 1) seconds until it is proved.
#[tactic(auto, using(outgoing::proofs::Steps::reading), unfolding(rules::specs::Writes::link_record))]
pub fn asked_link(tables: &[u8], packet: &[u8], arrived: Arrived, path: usize, id: [u8; 16]) -> Link
    requires { CanRead packet.now tables.now × (path < path_count) × (arrived.clock < clock_limit)
        × (id ≡ link_id packet.now) }
    ensures { result ≡ link_record (arrival_of packet.now arrived) (path_at tables.now path) }
{
    let port = lookup::path_port(tables, path);
    let hops = lookup::path_hops(tables, path);
    let lifetime = HOP_LIFETIME * (u64::from(hops) + 1);
    Link {
        id,
        asking: arrived.port,
        answering: port,
        taken: TakenHops(packet[HOPS_AT]),
        remaining: RemainingHops(hops),
        proved: false,
        expiry: arrived.clock + lifetime,
    }
}

// The link once the packet is carried.
#[tactic(auto, using(outgoing::proofs::Steps::joined), unfolding(rules::specs::Writes::renewed_link))]
fn renewed_link(packet: &[u8], arrived: Arrived, link: Link) -> Link
    requires { (reads longest_packet packet.now ≡ true) × (arrived.clock < clock_limit) }
    ensures { result ≡ renewed_link (arrival_of packet.now arrived) link }
{
    Link {
        proved: link.proved || forms::is_link_proof(packet),
        expiry: arrived.clock + PROVED_LIFETIME,
        ..link
    }
}

// A packet of the link at a place: forwarded by the port of its other side, and the link is renewed.
pub fn carry(
    packet: &[u8],
    arrived: Arrived,
    place: usize,
    port: u8,
    tables: &mut [u8],
    output: &mut [u8],
) -> Verdict
    requires { CanCarryOut packet.now arrived tables.old output.old (Carry place port) }
    ensures { CarriesOut packet.now arrived tables.old output.old
        result tables.new output.new }
{
    let link = renewed_link(packet, arrived, lookup::link_at(tables, place));
    let length = outgoing::carry(packet, output);
    update::put_link(tables, place, link);
    Verdict::Forward { port, length }
}
