// Accepted announces: spread or kept, and their path is set.
ghost use Rattle.std.specs.Prelude.{◌≡◌, true, ◌≤◌, ◌<◌, length};
ghost use Rattle.octets.specs.Choice.{◌then◌otherwise◌};
ghost use Rattle.packet.specs.Read.{longest_packet, reads};
ghost use Rattle.octets.specs.Part.{patch};
ghost use Rattle.numbers.specs.Numbers.{port_count, path_count, clock_limit, path_lifetime};
ghost use Rattle.rules.specs.Answers.{port_set};
ghost use Rattle.rules.specs.Judging.{leaves};
ghost use Rattle.rules.specs.Writes.{next_hop_of};
ghost use Rattle.tables.specs.Places.{table_size};
ghost use Rattle.tables.specs.Layout.{relay_of};
ghost use Rattle.outgoing.specs.Leaving.{CanLeave};
ghost use Rattle.plan.specs.declared.Decision.TheVariants.{Announce};
ghost use Rattle.plan.specs.Decided.{arrival_of, CanRead, CanKnow, seen};
ghost use Rattle.act.specs.Stored.{rate_stored, path_put};
ghost use Rattle.act.specs.Acted.{CanCarryOut, CarriesOut, spreads_to, spread_on, spread_verdict_on, announced_by};

use numbers::PORT_COUNT;
use packet::LONGEST_PACKET;
use plan::Arrived;
use rules::{RateEntry, Verdict};
use update::Announced;

// The number of ports as a byte.
const PORTS: u8 = PORT_COUNT as u8;

// Last accepted announce, violations and blocked-until of its path: a new one starts with none, and where test 15 isn't
// made, the other two stay.
#[tactic(auto, using(crate::proofs::Announced::announced_steps))]
fn announced_rate(tables: &[u8], clock: u64, place: usize, known: bool, blob: [u8; 10]) -> RateEntry
    requires { (length tables.now ≡ table_size) × (known ≡ true → CanKnow tables.now place) }
    ensures { result ≡ rate_stored tables.now place known clock blob }
{
    if !known {
        return RateEntry {
            last: clock,
            violations: 0,
            blocked_until: 0,
        };
    }
    if plan::revives(tables, place, blob) {
        let entry = lookup::path_rate(tables, place);
        return RateEntry {
            last: clock,
            ..entry
        };
    }
    let rated = plan::rate_at(tables, place, clock);
    RateEntry {
        last: clock,
        violations: rated.violations,
        blocked_until: rated.blocked_until,
    }
}

// What the announce sets of its path.
fn announced_path(tables: &[u8], packet: &[u8], arrived: Arrived, rate: RateEntry) -> Announced
    requires { CanRead packet.now tables.now × (arrived.port < port_count) × (arrived.clock < clock_limit) }
    ensures { result
        ≡ announced_by (seen arrived tables.now) (arrival_of packet.now arrived) rate }
{
    let parts = packet::parts_of(packet);
    let destination = parts.destination;
    let next_hop = forms::next_hop_of(packet);
    let lifetime = forms::path_lifetime(lookup::port_mode(tables, u64::from(arrived.port)));
    Announced {
        destination,
        port: arrived.port,
        hops: parts.hops,
        next_hop,
        expiry: arrived.clock + lifetime,
        rate,
    }
}

// Puts the path of an announce at its place. A known path keeps its blobs, and one already stored isn't stored twice.
fn put_path(tables: &mut [u8], place: usize, known: bool, path: Announced, blob: [u8; 10])
    requires { (length tables.old ≡ table_size) × (place < path_count)
        × (known ≡ true → CanKnow tables.old place) }
    ensures { tables.new ≡ path_put tables.old place known path blob }
{
    if !known {
        update::put_new_path(tables, place, path, blob);
    } else if lookup::holds_blob(tables, place, blob) {
        update::put_kept_path(tables, place, path);
    } else {
        update::put_known_path(tables, place, path, blob);
    }
}

// The ports that an announce of this length is spread to: all that are on but the arrival port, and carry it.
fn spread_ports(tables: &[u8], arrival: u8, long: usize) -> u16
    requires { length tables.now ≡ table_size }
    ensures { result ≡ port_set (spreads_to (relay_of tables.now) arrival long) }
{
    let mut ports = 0;
    for port in 0..PORTS {
        let on = lookup::port_on(tables, u64::from(port));
        let size = lookup::port_size(tables, u64::from(port));
        ports = outgoing::with_spread_port(ports, port, on, size, arrival, long);
    }
    ports
}

// Spreads an announce, or keeps it: if the result exceeds 500, or no port is left, the output stays.
fn spread(packet: &[u8], tables: &[u8], arrived: Arrived, output: &mut [u8]) -> Verdict
    requires { CanLeave packet.now × (length tables.now ≡ table_size) × (longest_packet ≤ length output.old) }
    ensures { (result ≡ spread_verdict_on packet.now arrived tables.now)
        × (output.new ≡ (leaves result
        then patch output.old 0 (spread_on packet.now tables.now)
        otherwise output.old)) }
{
    let long = outgoing::spread_length(packet);
    if long > LONGEST_PACKET {
        return Verdict::Kept;
    }
    let ports = spread_ports(tables, arrived.port, long);
    if ports == 0 {
        return Verdict::Kept;
    }
    let length = outgoing::spread(packet, lookup::own_address(tables), output);
    Verdict::Spread { ports, length }
}

// An accepted announce, whose path has a place.
pub fn announce(
    packet: &[u8],
    arrived: Arrived,
    place: usize,
    known: bool,
    tables: &mut [u8],
    output: &mut [u8],
) -> Verdict
    requires { CanCarryOut packet.now arrived tables.old output.old (Announce place known) }
    ensures { CarriesOut packet.now arrived tables.old output.old
        result tables.new output.new }
{
    let verdict = spread(packet, tables, arrived, output);
    let blob = packet::blob(packet::payload(packet));
    let rate = announced_rate(tables, arrived.clock, place, known, blob);
    let path = announced_path(tables, packet, arrived, rate);
    put_path(tables, place, known, path, blob);
    verdict
}
