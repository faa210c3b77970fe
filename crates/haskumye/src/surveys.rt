// The survey of a site's recordings: its start by a saved relay's settings, recording after recording, and the lines.
// The host lends what lasts from call to call: the tables that each recording starts from, tables to replay over, the
// counters, and the recordings' refusals.
ghost use Rattle.std.specs.Prelude.{◌≡◌};
ghost use Rattle.text.specs.Text.{text_of};
ghost use Rattle.surveying.specs.Promise.{start_on, recording_on, Surveys, line_at};

use numbers::refused_number;
use surveying::{COUNTER_COUNT, REFUSAL_COUNT};
use tables::places::TABLE_SIZE;

// Begins a survey with the settings of a saved relay. Refusals 20, 21, 22, 24, and then all stays.
#[unsafe(no_mangle)]
pub extern "C" fn haskumye_survey_begin(
    file: &[u8],
    start: &mut [u8; TABLE_SIZE],
    work: &mut [u8; TABLE_SIZE],
    counts: &mut [u64; COUNTER_COUNT],
    refusals: &mut [u8; REFUSAL_COUNT],
) -> u8
    ensures { Surveys
        (start_on file.now start.old work.old counts.old
        refusals.old)
        result start.new work.new counts.new refusals.new }
{
    refused_number(surveying::begin(file, start, work, counts, refusals))
}

// Replays a recording from the start and counts it. Refusals 29, a 17th, then 20, 21, 22, 23: noted for its line, and
// all else stays.
#[unsafe(no_mangle)]
pub extern "C" fn haskumye_survey_recording(
    file: &[u8],
    start: &[u8; TABLE_SIZE],
    work: &mut [u8; TABLE_SIZE],
    counts: &mut [u64; COUNTER_COUNT],
    refusals: &mut [u8; REFUSAL_COUNT],
) -> u8
    ensures { Surveys
        (recording_on file.now start.now work.old counts.old
        refusals.old)
        result start.now work.new counts.new refusals.new }
{
    refused_number(surveying::add_recording(file, start, work, counts, refusals))
}

// The survey's line at a place, 0 to 48, with its line feed: its length, and the line at the start of the buffer with
// zeros behind it. No characters where a recording was not refused, and past the last.
#[unsafe(no_mangle)]
pub extern "C" fn haskumye_survey_line(
    counts: &[u64; COUNTER_COUNT],
    refusals: &[u8; REFUSAL_COUNT],
    place: u64,
    line: &mut [u8; 160],
) -> usize
    ensures { (result ≡ (text_of (line_at counts.now refusals.now place)).length)
        × (line.new ≡ (text_of (line_at counts.now refusals.now place)).bytes) }
{
    let whole = surveying::line(counts, refusals, place as usize);
    let bytes = whole.bytes;
    *line = bytes;
    whole.length
}
