// Whether the signature word matters, so that a host verifies a signature only where it does.
ghost use Rattle.std.specs.Prelude.{◌≡◌, Ok};
ghost use Rattle.rules.specs.Questions.{whether_word_matters};
ghost use Rattle.tables.specs.Asked.{tell_on, told_number};
ghost use Rattle.relay.specs.Promise.{word_told};
ghost use Rattle.relay.specs.Signature.{decision_tells};

use super::refusals::accepted;
use numbers::Refusal;
use plan::Decision;
use rules::Reason;

// Whether the word no drops the packet: the word is read, and the signature has to be verified.
#[tactic(auto, using(outgoing::proofs::Steps::joined))]
fn decision_tells(decision: Decision) -> bool
    ensures { word_told (Ok result) ≡ decision_tells decision }
{
    matches!(decision, Decision::Drop(Reason::NotSigned))
}

// Whether a packet call with an output of `room` bytes would read the word, by what it decides with the word no, or
// why that call is refused. Nothing is written.
pub fn signature_matters(
    packet: &[u8],
    port: u64,
    clock: u64,
    tables: &[u8],
    room: usize,
) -> Result<bool, Refusal>
    ensures { word_told result
        ≡ told_number (tell_on tables.now (whether_word_matters packet.now port clock room)) }
{
    let arrived = accepted(packet, port, clock, false, tables, room)?;
    if plan::not_ours(tables, packet, arrived) {
        return Ok(false);
    }
    let hash = plan::used_hash(packet);
    let live = plan::hash_live(tables, packet, arrived, hash);
    Ok(decision_tells(plan::decide(tables, packet, arrived, live)))
}
