// Recordings one after another, each replayed from the same start.
ghost use Rattle.std.specs.Prelude.{◌≡◌, ◌<◌, slice_index};
ghost use Rattle.numbers.specs.Refusals.{refused_number};
ghost use Rattle.rules.specs.Calls.{new_tally};
ghost use Rattle.recording.specs.Shape.{count_of};
ghost use Rattle.recording.specs.Reader.{entries_of, fields_of};
ghost use Rattle.replaying.specs.Promise.{steps_on};
ghost use Rattle.surveying.specs.Counts.{answered};
ghost use Rattle.surveying.specs.Survey.{recording_limit};
ghost use Rattle.surveying.specs.Promise.{add_all, noted, recording_on, Surveys};

use super::counting::add_one;
use super::{COUNTER_COUNT, RECORDING_LIMIT, REFUSAL_COUNT};
use numbers::{Refusal, refused_number};
use replaying::new_tally;
use tables::places::TABLE_SIZE;

// The port that entry i came by, 0 where the entry isn't there.
fn port_of(file: &[u8], i: usize) -> u8
    ensures { result ≡ (fields_of file.now i).port }
{
    match recording::entry(file, i) {
        Some(head) => head.port,
        None => 0,
    }
}

// Makes the calls of a recording's entries, with a new tally, and counts what they answer.
fn replay(file: &[u8], work: &mut [u8], counts: &mut [u64; COUNTER_COUNT])
    ensures { (counts.new ≡ add_all counts.old (answered (entries_of file.now)
        (steps_on file.now (count_of file.now) work.old new_tally).answers))
        × (work.new
        ≡ (steps_on file.now (count_of file.now) work.old new_tally).tables) }
{
    let mut tally = new_tally();
    for i in 0..recording::count(file) {
        let port = port_of(file, i);
        let size = recording::body(file, i).len();
        let stepped = replaying::step(file, i, work, tally);
        add_one(counts, port, size, stepped.answer);
        tally = stepped.tally;
    }
}

// Notes the refusal of the next recording, or 0, and that it was read.
#[tactic(auto, unfolding(crate::specs::Promise::noted))]
fn note(refusals: &mut [u8; REFUSAL_COUNT], refusal: u8)
    requires { slice_index refusals.old 0 < recording_limit }
    ensures { refusals.new ≡ noted refusals.old refusal }
{
    let number = refusals[0] + 1;
    refusals[usize::from(number)] = refusal;
    refusals[0] = number;
}

// Reads a recording and counts what its replay from the start answers. A 17th isn't read.
pub fn add_recording(
    file: &[u8],
    start: &[u8; TABLE_SIZE],
    work: &mut [u8; TABLE_SIZE],
    counts: &mut [u64; COUNTER_COUNT],
    refusals: &mut [u8; REFUSAL_COUNT],
) -> Result<(), Refusal>
    ensures { Surveys
        (recording_on file.now start.now work.old counts.old
        refusals.old)
        (refused_number result) start.now work.new counts.new refusals.new }
{
    if usize::from(refusals[0]) >= RECORDING_LIMIT {
        refusals[RECORDING_LIMIT + 1] = Refusal::SurveyFull.number();
        return Err(Refusal::SurveyFull);
    }
    let checked = recording::check(file);
    note(refusals, refused_number(checked));
    if checked.is_ok() {
        *work = *start;
        replay(file, work, counts);
    }
    checked
}
