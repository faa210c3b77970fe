// The replay of a recording, as document 02's Wish 1 has it: one step for each entry, and the line that it prints.
// Entry points: new_tally, step, line_of, with_reason, with_ports. They have no `requires`, and end on any bytes.
#![tactic(auto)]

mod lines;
mod reasons;

ghost use Rattle.std.specs.Prelude.{◌≡◌};
ghost use Rattle.rules.specs.Calls.{new_tally};
ghost use Rattle.replaying.specs.Promise.{Steps, step_as, step_on};

pub use lines::{line_of, with_ports};
use numbers::{LEAST_OUTPUT, Refusal};
pub use reasons::with_reason;
use rules::{Answer, Tally};
use text::Text;

// A step: what the packet call answered, the tally after it, and the entry's line, None where the entry isn't there.
#[derive(Clone, Copy)]
pub struct Stepped {
    pub answer: Answer,
    pub tally: Tally,
    pub line: Option<Text>,
}

// A replay starts with this tally: none of each.
pub fn new_tally() -> Tally
    ensures { result ≡ new_tally }
{
    Tally {
        total: 0,
        dropped: 0,
        delivered: 0,
        forwarded: 0,
        spread: 0,
        kept: 0,
    }
}

// The packet call of entry i, over the tables and the tally as they are. Where the entry isn't there: refusal 22, no
// line, and nothing changes.
pub fn step(file: &[u8], i: usize, tables: &mut [u8], tally: Tally) -> Stepped
    ensures { Steps (step_on file.now i tables.old tally) (step_as result) tables.new }
{
    let Some(head) = recording::entry(file, i) else {
        return Stepped {
            answer: Answer::Refused(Refusal::FilePlace.number()),
            tally,
            line: None,
        };
    };
    let body = recording::body(file, i);
    let mut output = [0u8; LEAST_OUTPUT];
    let judged = relay::judge(
        body,
        u64::from(head.port),
        head.clock,
        head.word == 1,
        tables,
        &mut output,
        tally,
    );
    Stepped {
        answer: judged.answer,
        tally: judged.tally,
        line: Some(line_of(i as u64 + 1, judged.answer)),
    }
}
