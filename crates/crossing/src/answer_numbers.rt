// An answer as one number.
ghost use Rattle.std.specs.Prelude.{◌≡◌};
ghost use Rattle.crossing.specs.Answers.{fields_number, drop_number, verdict_number, answer_number};

use super::bits::{
    CLAUSE_PLACE, DETAIL_PLACE, LENGTH_PLACE, LENGTH_SPAN, PORTS_PLACE, START_PLACE, START_SPAN,
    VALUE_PLACE, VALUE_SPAN,
};
use rules::{Answer, Verdict};

// Five fields in one number.
#[tactic(auto, unfolding(crate::specs::Answers::fields_number))]
pub fn fields_number(kind: u8, detail: u8, ports: u16, length: usize, start: usize) -> u64
    ensures { result ≡ fields_number kind detail ports length start }
{
    u64::from(kind)
        + u64::from(detail) * DETAIL_PLACE
        + u64::from(ports) * PORTS_PLACE
        + ((length % LENGTH_SPAN) as u64) * LENGTH_PLACE
        + ((start % START_SPAN) as u64) * START_PLACE
}

// A drop's fields in one number.
#[tactic(auto, unfolding(crate::specs::Answers::drop_number))]
fn drop_number(test: u8, clause: u8, value: u64) -> u64
    ensures { result ≡ drop_number test clause value }
{
    1 + u64::from(test) * DETAIL_PLACE
        + u64::from(clause) * CLAUSE_PLACE
        + value % VALUE_SPAN * VALUE_PLACE
}

// The number of a verdict on a packet whose payload starts there.
#[tactic(auto, unfolding(crate::specs::Answers::verdict_number))]
pub fn verdict_number(verdict: Verdict, start: usize) -> u64
    ensures { result ≡ verdict_number start verdict }
{
    match verdict {
        Verdict::Drop(reason) => {
            drop_number(
                relay::reason_number(reason),
                relay::reason_clause(reason),
                relay::reason_value(reason),
            )
        }
        Verdict::Deliver => fields_number(2, 0, 0, 0, start),
        Verdict::Forward { port, length } => fields_number(3, 0, u16::from(port), length, 0),
        Verdict::Spread { ports, length } => fields_number(4, 0, ports, length, 0),
        Verdict::Kept => fields_number(5, 0, 0, 0, 0),
    }
}

// The number of an answer to a packet whose payload starts there.
#[tactic(auto, unfolding(crate::specs::Answers::answer_number))]
pub fn answer_number(answer: Answer, start: usize) -> u64
    ensures { result ≡ answer_number start answer }
{
    match answer {
        Answer::Refused(number) => fields_number(0, number, 0, 0, 0),
        Answer::Judged(verdict) => verdict_number(verdict, start),
    }
}
