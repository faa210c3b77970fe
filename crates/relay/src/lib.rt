// The packet call: a packet is refused, or decided, acted on and counted.
// Entry points: judge, with the tally by value (crates/haskumye lends it to hosts by `&mut`), signature_matters,
// reason_number, reason_clause and reason_value. They have no `requires`, and end on any bytes.
#![tactic(auto)]

mod refusals;
mod signature;
mod tallies;

ghost use Rattle.relay.specs.Promise.{Promises, packet_on};

pub use plan::{reason_clause, reason_number, reason_value};
use refusals::accepted;
use rules::{Answer, Reason, Tally, Verdict};
pub use signature::signature_matters;
use tallies::counted;

// What a packet call returns where the tally goes in by value.
#[derive(Clone, Copy)]
pub struct Answered {
    pub answer: Answer,
    pub tally: Tally,
}

// A packet that came by a port at a clock, with the host's word on its signature. The tables and the output are written
// where they lie. Test 1 comes before the hash: its drop remembers nothing, and on a shared radio most packets are for
// other relays. Keepalives and their like aren't hashed at all.
pub fn judge(
    packet: &[u8],
    port: u64,
    clock: u64,
    signed: bool,
    tables: &mut [u8],
    output: &mut [u8],
    tally: Tally,
) -> Answered
    ensures { Promises
        (packet_on packet.now port clock signed tables.old tally output.old)
        result.answer result.tally tables.new output.new }
{
    let arrived = match accepted(packet, port, clock, signed, tables, output.len()) {
        Ok(arrived) => arrived,
        Err(refusal) => {
            return Answered {
                answer: Answer::Refused(refusal.number()),
                tally,
            };
        }
    };
    if plan::not_ours(tables, packet, arrived) {
        update::set_clock(tables, arrived.clock);
        let dropped = Verdict::Drop(Reason::NotOurs);
        return Answered {
            answer: Answer::Judged(dropped),
            tally: counted(dropped, tally),
        };
    }
    let hash = plan::used_hash(packet);
    let live = plan::hash_live(tables, packet, arrived, hash);
    let decision = plan::decide(tables, packet, arrived, live);
    let verdict = act::act(packet, arrived, hash, live, decision, tables, output);
    Answered {
        answer: Answer::Judged(verdict),
        tally: counted(verdict, tally),
    }
}
