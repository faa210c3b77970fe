// What an accepted packet leaves: its destination's path, a return record, a link, its hash. Each is given by what was
// seen when it came.
ghost use Rattle.std.specs.Prelude.{◌≡◌, true, ◌≤◌, ◌<◌, length};
ghost use Rattle.packet.specs.Places.{blob_end};
ghost use Rattle.packet.specs.Read.{longest_packet, reads, payload};
ghost use Rattle.numbers.specs.Numbers.{blob_limit, clock_limit};
ghost use Rattle.rules.specs.Arrival.{destination as destination_of};
ghost use Rattle.rules.specs.Refusals.{rate_settings_ok, rate_entry_ok};
ghost use Rattle.rules.specs.Writes.{link_record, renewed_link, announced_path};
ghost use Rattle.rules.specs.Writes.{remembers as is_remembered};
ghost use Rattle.judging.specs.Seen.{arrival_of, blobs_of, path_record, path_of, PathFits, EachFits, plan_of, as_seen};
ghost use Rattle.judging.specs.Steps.{settings_view, rate_announced, blobs_announced};
ghost use Rattle.judging.specs.Steps.{limited, left_return, plan_remembers};

use super::blobs::revives;
use super::early::for_marked_path;
use super::{Arrived, Planned, Seen, SeenPath, SeenReturn, Stored};
use numbers::{BLOB_WIDTH, HOP_LIFETIME, PROVED_LIFETIME, RETURN_LIFETIME};
use packet::places::HOPS_AT;
use rules::{Link, RateEntry, RateSettings, Reason, RemainingHops, TakenHops};

// ---- paths
// Last accepted announce, violations and blocked-until: a new path starts with none, and where test 15 isn't made, the
// other two stay.
fn announced_rate(
    settings: RateSettings,
    known: Option<SeenPath>,
    blob: [u8; BLOB_WIDTH],
    clock: u64,
) -> RateEntry
    requires { (rate_settings_ok settings ≡ true) × EachFits known × (clock < clock_limit) }
    ensures { (result ≡ rate_announced settings known blob clock) × (rate_entry_ok result ≡ true) }
{
    let Some(path) = known else {
        return RateEntry {
            last: clock,
            violations: 0,
            blocked_until: 0,
        };
    };
    if revives(&path, blob) {
        return RateEntry {
            last: clock,
            ..path.rate
        };
    }
    let rated = rate::rule(settings, clock, path.rate);
    RateEntry {
        last: clock,
        violations: rated.violations,
        blocked_until: rated.blocked_until,
    }
}

fn announced_blobs(known: Option<SeenPath>, blob: [u8; BLOB_WIDTH]) -> Stored
    requires { EachFits known }
    ensures { (blobs_of result ≡ blobs_announced known blob) × (result.count ≤ blob_limit) }
{
    let Some(path) = known else {
        return Stored::of_one(blob);
    };
    let mut blobs = path.blobs;
    blobs.store(blob);
    blobs
}

// The path that an accepted announce leaves, by the settings of the announce rate, the arrival port's mode and the live
// path that was known, if any.
pub fn announced_path(
    settings: RateSettings,
    mode: u8,
    known: Option<SeenPath>,
    packet: &[u8],
    arrived: Arrived,
) -> SeenPath
    requires { (reads longest_packet packet.now ≡ true) × (blob_end ≤ length (payload packet.now))
        × (rate_settings_ok settings ≡ true) × EachFits known × (arrived.clock < clock_limit) }
    ensures { (path_record (destination_of (arrival_of packet.now arrived)) result
        ≡ announced_path (settings_view settings mode) (arrival_of packet.now arrived)
        (path_of (destination_of (arrival_of packet.now arrived)) known)) × PathFits result }
{
    let blob = packet::blob(packet::payload(packet));
    SeenPath {
        port: arrived.port,
        hops: packet::parts_of(packet).hops,
        next_hop: forms::next_hop_of(packet),
        expiry: arrived.clock + forms::path_lifetime(mode),
        rate: announced_rate(settings, known, blob, arrived.clock),
        notes: notes::none(),
        blobs: announced_blobs(known, blob),
    }
}

// The path once the rate rule has dropped an announce at a clock: violations and blocked-until change, and nothing
// else.
pub fn limited_path(settings: RateSettings, known: SeenPath, clock: u64) -> SeenPath
    requires { (rate_settings_ok settings ≡ true) × PathFits known }
    ensures { (result ≡ limited settings clock known) × PathFits result }
{
    let rated = rate::rule(settings, clock, known.rate);
    let rate = RateEntry {
        violations: rated.violations,
        blocked_until: rated.blocked_until,
        ..known.rate
    };
    SeenPath { rate, ..known }
}

// ---- return records and links
// The return record that data forwarded by a path leaves, under its return key.
pub fn return_record(path: SeenPath, arrived: Arrived) -> SeenReturn
    requires { arrived.clock < clock_limit }
    ensures { result ≡ left_return path arrived }
{
    SeenReturn {
        arrival: arrived.port,
        leaving: path.port,
        expiry: arrived.clock + RETURN_LIFETIME,
    }
}

// The link that a link request forwarded by a path leaves, under its id. It lives 6 × (remaining hops + 1) seconds
// until it is proved.
pub fn link_record(path: SeenPath, packet: &[u8], arrived: Arrived) -> Link
    requires { (reads longest_packet packet.now ≡ true) × (arrived.clock < clock_limit) }
    ensures { result ≡ link_record (arrival_of packet.now arrived)
        (path_record (destination_of (arrival_of packet.now arrived)) path) }
{
    Link {
        id: packet::link_id_of(packet),
        asking: arrived.port,
        answering: path.port,
        taken: TakenHops(packet[HOPS_AT]),
        remaining: RemainingHops(path.hops),
        proved: false,
        expiry: arrived.clock + HOP_LIFETIME * (u64::from(path.hops) + 1),
    }
}

// The link once a packet is carried along it.
pub fn renewed_link(link: Link, packet: &[u8], arrived: Arrived) -> Link
    requires { (reads longest_packet packet.now ≡ true) × (arrived.clock < clock_limit) }
    ensures { result ≡ renewed_link (arrival_of packet.now arrived) link }
{
    Link {
        proved: link.proved || forms::is_link_proof(packet),
        expiry: arrived.clock + PROVED_LIFETIME,
        ..link
    }
}

// ---- hashes
// Whether what was planned lets the hash be remembered: drops 1 and 2 do not.
fn plan_remembers(planned: &Planned) -> bool
    ensures { result ≡ plan_remembers planned.now }
{
    !matches!(planned, Planned::Drop(Reason::NotOurs | Reason::Duplicate))
}

// Whether the packet's hash is remembered: an exempt packet's is not, nor one that is already live.
pub fn remembers(seen: &Seen, packet: &[u8], arrived: Arrived, planned: &Planned) -> bool
    requires { reads longest_packet packet.now ≡ true }
    ensures { result ≡ as_seen is_remembered seen.now packet.now arrived
        (plan_of seen.now (arrival_of packet.now arrived) planned.now) }
{
    !forms::exempt(packet)
        && !(for_marked_path(seen, packet, arrived) && seen.remembered)
        && plan_remembers(planned)
}
