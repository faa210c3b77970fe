// What is to be done with an accepted packet, decided from the tables' bytes before anything is written.
// Every function here is a helper of the packet call: the caller shows that the tables are well formed and that the
// packet reads. Entry points: none. The packet call decides by `not_ours`, before it hashes, and by `decide`;
// `reason_number` stands here for all above.
#![tactic(auto)]

mod announces;
mod contexts;
mod first;
mod leaving;
mod links;
mod marked;
mod paths;
mod reasons;
mod returns;

ghost use Rattle.std.specs.Prelude.{◌≡◌, false};
ghost use Rattle.rules.specs.Tests.{bad_form};
ghost use Rattle.plan.specs.Decided.{CanJudge, arrival_of, hash_live, seen, onward_on, decision_on};

use announces::decide_announce;
pub use announces::rate_at;
pub use contexts::used_hash;
use first::first_tests;
pub use first::{hash_live, not_ours};
use links::decide_of_link;
pub use marked::{already_live, revives};
use paths::decide_by_path;
pub use reasons::{reason_clause, reason_number, reason_value};
use returns::decide_proof;
use rules::Reason;

// How a packet came: the arrival port, the clock, and the host's word on the signature.
#[derive(Clone, Copy)]
pub struct Arrived {
    pub port: u8,
    pub clock: u64,
    pub signed: bool,
}

// The rules' plan, with the places of the records that it concerns. Addresses are read again where they are written,
// but for a link id, which is hashed.
#[derive(Clone, Copy)]
pub enum Decision {
    Drop(Reason),
    Deliver,
    // An accepted announce: the slot of its path, and whether the path is known.
    Announce {
        place: usize,
        known: bool,
    },
    // Data by the path at a place.
    Data {
        path: usize,
    },
    // A link request by the path at a place, the slot for its link, and its id.
    Request {
        path: usize,
        place: usize,
        id: [u8; 16],
    },
    // A packet of the link at a place, and the port to leave by.
    Carry {
        link: usize,
        port: u8,
    },
    // An ordinary proof by the return record at a place, and the port to leave by.
    Receipt {
        place: usize,
        port: u8,
    },
}

// Tests 6 to 13, by the way that the packet would follow.
#[tactic(auto, using(crate::proofs::Judged::judging))]
fn decide_onward(tables: &[u8], packet: &[u8], arrived: Arrived) -> Decision
    requires { CanJudge packet.now tables.now × (bad_form packet.now ≡ false) }
    ensures { result ≡ onward_on packet.now arrived tables.now }
{
    let header = packet[0];
    if packet::is_announce(header) {
        return decide_announce(tables, packet, arrived);
    }
    if packet::of_kind_link(header) {
        return decide_of_link(tables, packet, arrived);
    }
    if packet::is_proof(header) {
        return decide_proof(tables, packet, arrived);
    }
    decide_by_path(tables, packet, arrived)
}

// What is to be done with an accepted packet, whose hash is live or not.
pub fn decide(tables: &[u8], packet: &[u8], arrived: Arrived, live: bool) -> Decision
    requires { CanJudge packet.now tables.now
        × (live ≡ hash_live (seen arrived tables.now) (arrival_of packet.now arrived)) }
    ensures { result ≡ decision_on packet.now arrived tables.now }
{
    if let Some(decision) = first_tests(tables, packet, arrived, live) {
        return decision;
    }
    decide_onward(tables, packet, arrived)
}
