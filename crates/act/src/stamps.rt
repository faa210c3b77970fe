// The stamp of an accepted packet: every one sets the clock, and all but exempt packets, drops 1 and 2, and announces
// for a marked path whose hash is already live leave their hash in the tables.
ghost use Rattle.std.specs.Prelude.{◌≡◌, true, ◌<◌, length};
ghost use Rattle.numbers.specs.Numbers.{hash_count, clock_limit};
ghost use Rattle.tables.specs.Places.{table_size};
ghost use Rattle.plan.specs.Decided.{CanRead, arrival_of, hash_live, seen};
ghost use Rattle.act.specs.Stored.{decision_remembers, remembers_decided, stamped};

use numbers::HASH_LIFETIME;
use plan::{Arrived, Decision};
use rules::Reason;

// Whether what was decided lets the hash be remembered: the first two drops do not.
#[tactic(auto, using(outgoing::proofs::Steps::joined), unfolding(rules::specs::Writes::remembers_drop))]
fn decision_remembers(decision: Decision) -> bool
    ensures { result ≡ decision_remembers decision }
{
    !matches!(
        decision,
        Decision::Drop(Reason::NotOurs | Reason::Duplicate)
    )
}

// Whether the packet's hash is remembered: an exempt packet's is not, whatever was decided, nor one that is already
// live. The tables are those before the packet's record is written, which may clear the mark.
#[tactic(auto, using(outgoing::proofs::Steps::joined), unfolding(crate::specs::Stored::remembers_decided))]
pub fn remembers(
    tables: &[u8],
    packet: &[u8],
    arrived: Arrived,
    live: bool,
    decision: Decision,
) -> bool
    requires { CanRead packet.now tables.now
        × (live ≡ hash_live (seen arrived tables.now) (arrival_of packet.now arrived)) }
    ensures { result ≡ remembers_decided packet.now arrived tables.now decision }
{
    !forms::exempt(packet)
        && decision_remembers(decision)
        && !plan::already_live(tables, packet, arrived, live)
}

// Sets the clock, and remembers the hash, if it is to be, at a place: the next of its ring.
#[tactic(auto, using(outgoing::proofs::Steps::joined), unfolding(crate::specs::Stored::stamped))]
pub fn stamp(tables: &mut [u8], place: usize, remembered: bool, hash: [u8; 32], clock: u64)
    requires { (length tables.old ≡ table_size) × (place < hash_count) × (clock < clock_limit) }
    ensures { tables.new ≡ stamped tables.old place remembered hash clock }
{
    update::set_clock(tables, clock);
    if remembered {
        update::remember(tables, place, hash, clock + HASH_LIFETIME);
    }
}
