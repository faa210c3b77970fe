// Document 02, wish 13, "for checking by eye": a packet judged by what is seen for it, with no tables, slots or rings.
// The code goes as document 01's tests do, in their order, and each test is a function of its own. What is seen comes
// as a struct by value: who makes it shows that it is what there is to see (specs/Seen.antt).
// Entry points: none. The caller shows that the packet reads, and that what is seen keeps refusal 7's bounds.
#![tactic(auto, using(outgoing::proofs::LeavingLaws::long, outgoing::proofs::LeavingLaws::whole))]

mod blobs;
mod early;
mod keys;
mod leaving;
mod onward;
mod records;
mod sending;
mod sides;
mod ways;

ghost use Rattle.std.specs.Prelude.{◌≡◌, true, ◌≤◌, length};
ghost use Rattle.packet.specs.Read.{longest_packet, reads};
ghost use Rattle.rules.specs.Judging.{plan, verdict, output_after};
ghost use Rattle.judging.specs.Seen.{arrival_of, Fits, plan_of, as_seen};

use early::{delivered_here, duplicate, not_ours, own_announce};
pub use keys::{link_key, return_key};
use notes::Notes;
use numbers::{BLOB_LIMIT, BLOB_WIDTH, HOPS_LIMIT, LONGEST_PACKET};
use onward::plan_onward;
use packet::places::HOPS_AT;
pub use records::{
    announced_path, limited_path, link_record, remembers, renewed_link, return_record,
};
use rules::{Blocked, Link, RateEntry, RateSettings, Reason, Verdict};
use sending::send;

// How a packet came: the arrival port, the clock, and the host's word on the signature.
#[derive(Clone, Copy)]
pub struct Arrived {
    pub port: u8,
    pub clock: u64,
    pub signed: bool,
}

// A port's settings.
#[derive(Clone, Copy)]
pub struct SeenPort {
    pub on: bool,
    pub mode: u8,
    pub size: usize,
}

// A port of which nothing was set, and a number that no port has: off.
pub const PORT_OFF: SeenPort = SeenPort {
    on: false,
    mode: 0,
    size: LONGEST_PACKET,
};

// The blobs of a path: so many of the places hold one, the one stored longest ago first. What the others hold counts
// for nothing.
#[derive(Clone, Copy)]
pub struct Stored {
    pub count: usize,
    pub places: [[u8; BLOB_WIDTH]; BLOB_LIMIT],
}

// A destination's path.
#[derive(Clone, Copy)]
pub struct SeenPath {
    pub port: u8,
    pub hops: u8,
    pub next_hop: [u8; 16],
    pub expiry: u64,
    pub rate: RateEntry,
    pub notes: Notes,
    pub blobs: Stored,
}

// A return record.
#[derive(Clone, Copy)]
pub struct SeenReturn {
    pub arrival: u8,
    pub leaving: u8,
    pub expiry: u64,
}

// What is seen for one packet at its clock: our own address, the rate settings and the ports; whether the packet's
// destination is local, and whether its hash is remembered; the live path and the live return record of its
// destination, and the live link of its destination or, for a link request, of the id that it would have.
#[derive(Clone, Copy)]
pub struct Seen {
    pub own: [u8; 16],
    pub rate: RateSettings,
    pub ports: [SeenPort; 16],
    pub local: bool,
    pub remembered: bool,
    pub path: Option<SeenPath>,
    pub link: Option<Link>,
    pub back: Option<SeenReturn>,
}

// What a packet would follow, with the record that is seen, or why there is no way on.
#[derive(Clone, Copy)]
pub enum SeenWay {
    Everywhere,
    ByPath(SeenPath),
    AlongLink(Link),
    ByReturn(SeenReturn),
    Blocked(Blocked),
}

// What is to be done with an accepted packet.
#[derive(Clone, Copy)]
pub enum Planned {
    Drop(Reason),
    Deliver,
    Follow(SeenWay),
}

// What is to be done with an accepted packet: tests 1 to 5, with delivery at test 4's place, and those behind them.
pub fn plan_of(seen: &Seen, packet: &[u8], arrived: Arrived) -> Planned
    requires { (reads longest_packet packet.now ≡ true) × Fits seen.now }
    ensures { plan_of seen.now (arrival_of packet.now arrived) result
        ≡ as_seen plan seen.now packet.now arrived }
{
    if not_ours(seen, packet, arrived) {
        return Planned::Drop(Reason::NotOurs);
    }
    if duplicate(seen, packet, arrived) {
        return Planned::Drop(Reason::Duplicate);
    }
    if let Some(clause) = forms::form_of(packet) {
        return Planned::Drop(Reason::BadForm(clause));
    }
    if own_announce(seen, packet, arrived) {
        return Planned::Drop(Reason::OwnAnnounce);
    }
    if delivered_here(seen, packet, arrived) {
        return Planned::Deliver;
    }
    if packet[HOPS_AT] >= HOPS_LIMIT {
        return Planned::Drop(Reason::TooManyHops);
    }
    plan_onward(seen, packet, arrived)
}

// The answer to a packet that was so planned, with the packet that leaves at the output's start.
pub fn answer_of(
    seen: &Seen,
    packet: &[u8],
    arrived: Arrived,
    planned: &Planned,
    output: &mut [u8],
) -> Verdict
    requires { (reads longest_packet packet.now ≡ true) × (longest_packet ≤ length output.old)
        × (plan_of seen.now (arrival_of packet.now arrived) planned.now
        ≡ as_seen plan seen.now packet.now arrived) }
    ensures { (result ≡ as_seen verdict seen.now packet.now arrived
        (as_seen plan seen.now packet.now arrived))
        × (output.new ≡ as_seen output_after seen.now packet.now arrived
        (as_seen plan seen.now packet.now arrived) output.old) }
{
    match planned {
        Planned::Drop(reason) => Verdict::Drop(*reason),
        Planned::Deliver => Verdict::Deliver,
        Planned::Follow(way) => send(seen, packet, arrived, way, output),
    }
}
