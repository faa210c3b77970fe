// Data and link requests by a path.
ghost use Rattle.std.specs.Prelude.{◌≡◌, ◌≤◌, ◌<◌, length};
ghost use Rattle.octets.specs.Part.{patch};
ghost use Rattle.packet.specs.Read.{longest_packet};
ghost use Rattle.packet.specs.Hash.{packet_hash};
ghost use Rattle.numbers.specs.Numbers.{path_count};
ghost use Rattle.tables.specs.Places.{table_size};
ghost use Rattle.outgoing.specs.Leaving.{CanLeave};
ghost use Rattle.plan.specs.declared.Decision.TheVariants.{Data, Request};
ghost use Rattle.act.specs.Acted.{CanCarryOut, CarriesOut, forwarded_on};

use super::links::asked_link;
use super::returns::put_return;
use plan::Arrived;
use rules::Verdict;

// Writes what leaves by the path at a place, and says how long it is.
#[tactic(auto, using(outgoing::proofs::Steps::joined))]
fn forward(packet: &[u8], tables: &[u8], path: usize, output: &mut [u8]) -> usize
    requires { CanLeave packet.now × (length tables.now ≡ table_size) × (path < path_count)
        × (longest_packet ≤ length output.old) }
    ensures { (result ≡ length (forwarded_on packet.now tables.now path))
        × (output.new
        ≡ patch output.old 0 (forwarded_on packet.now tables.now path)) }
{
    let hops = lookup::path_hops(tables, path);
    let next_hop = lookup::path_next_hop(tables, path);
    outgoing::forward_by_path(packet, hops, next_hop, output)
}

// Data by the path at a place, which makes a return record.
pub fn send(
    packet: &[u8],
    arrived: Arrived,
    hash: [u8; 32],
    path: usize,
    tables: &mut [u8],
    output: &mut [u8],
) -> Verdict
    requires { CanCarryOut packet.now arrived tables.old output.old (Data path)
        × (hash ≡ packet_hash packet.now) }
    ensures { CarriesOut packet.now arrived tables.old output.old
        result tables.new output.new }
{
    let port = lookup::path_port(tables, path);
    let length = forward(packet, tables, path, output);
    put_return(tables, arrived.port, port, hash, arrived.clock);
    Verdict::Forward { port, length }
}

// A link request by the path at a place, which makes a link.
pub fn request(
    packet: &[u8],
    arrived: Arrived,
    path: usize,
    place: usize,
    id: [u8; 16],
    tables: &mut [u8],
    output: &mut [u8],
) -> Verdict
    requires { CanCarryOut packet.now arrived tables.old output.old (Request path place id) }
    ensures { CarriesOut packet.now arrived tables.old output.old
        result tables.new output.new }
{
    let port = lookup::path_port(tables, path);
    let link = asked_link(tables, packet, arrived, path, id);
    let length = forward(packet, tables, path, output);
    update::put_link(tables, place, link);
    Verdict::Forward { port, length }
}
