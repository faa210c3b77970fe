// Surveys a site's recordings, `survey SETTINGS RECORDING..`: the lines of the survey on standard output. SETTINGS is a
// saved relay, of which own address, ports, announce rate and local addresses are taken. One that can't be loaded gives
// one line, `settings refused` and the load's number.
#![tactic(auto)]

ghost use Rattle.std.specs.Prelude.{ℕ, List, OnOk};
ghost use Rattle.std.specs.Io.KnownBytes.{Appends};
ghost use Rattle.octets.specs.Index.{list_of};
ghost use Rattle.octets.specs.Part.{joined};
ghost use Rattle.surveying.specs.Promise.{line_at, line_count};
ghost use Rattle.surveying.specs.Survey.{survey};
ghost use Rattle.survey.specs.Reading.{lent, ReadsFrom};

use console::{has_argument, print, read_file, zeros};
use recording::{LONGEST_FILE, LONGEST_SAVED};
use std::env::Env;
use std::io;
use std::io::Write;
use std::rt::Files;
use surveying::{COUNTER_COUNT, LINE_COUNT, RECORDING_LIMIT, REFUSAL_COUNT};
use tables::places::TABLE_SIZE;

// The arguments before the recordings: the program's name and the settings.
const RECORDINGS_FROM: usize = 2;

// One byte more than the longest saved relay and the longest recording, so that longer files show.
const SAVED_ROOM: usize = LONGEST_SAVED + 1;

const RECORDING_ROOM: usize = LONGEST_FILE + 1;

// Surveys the recordings that the arguments name, one after another. A 17th ends the reading, and isn't read. The lines
// have the refusals.
fn read_recordings<R: Env + Files + Eprint + Alloc>(
    rt: &R,
    start: &[u8; TABLE_SIZE],
    work: &mut [u8; TABLE_SIZE],
    counts: &mut [u64; COUNTER_COUNT],
    refusals: &mut [u8; REFUSAL_COUNT],
)
    ensures { ReadsFrom (lent 0 start.now work.old counts.old refusals.old) start.now work.new counts.new refusals.new }
{
    let mut file: [u8; RECORDING_ROOM] = zeros();
    for i in RECORDINGS_FROM..RECORDINGS_FROM + RECORDING_LIMIT {
        if !has_argument(rt, i) {
            return;
        }
        let size = read_file(rt, i, &mut file);
        let _ = surveying::add_recording(&file[..size], start, work, counts, refusals);
    }
    if has_argument(rt, RECORDINGS_FROM + RECORDING_LIMIT) {
        let _ = surveying::add_recording(&[], start, work, counts, refusals);
    }
}

// Prints all lines, each also where one before it can't be printed: that fails at the end.
fn print_lines<W: Write>(
    out: &mut W,
    counts: &[u64; COUNTER_COUNT],
    refusals: &[u8; REFUSAL_COUNT],
) -> io::Result<()>
    ensures { OnOk result (Appends (W.contents out.old) (W.contents out.new) (joined (line_at counts.now refusals.now) (list_of (λ i. i) line_count))) }
{
    let mut printed = Ok(());
    for i in 0..LINE_COUNT {
        printed = printed.and(print(out, surveying::line(counts, refusals, i)));
    }
    printed
}

// Prints the survey of the recordings that the arguments name.
fn survey_site<R: Env + Files + Eprint + Alloc, W: Write>(rt: &R, out: &mut W) -> io::Result<()>
    ensures { (settings : List ℕ) × (files : List (List ℕ)) × OnOk result (Appends (W.contents out.old) (W.contents out.new) (survey settings files)) }
{
    let mut stored: [u8; SAVED_ROOM] = zeros();
    let mut start: [u8; TABLE_SIZE] = zeros();
    let mut work: [u8; TABLE_SIZE] = zeros();
    let mut counts = [0u64; COUNTER_COUNT];
    let mut refusals = [0u8; REFUSAL_COUNT];
    let held = read_file(rt, 1, &mut stored);
    match surveying::begin(
        &stored[..held],
        &mut start,
        &mut work,
        &mut counts,
        &mut refusals,
    ) {
        Ok(()) => {
            read_recordings(rt, &start, &mut work, &mut counts, &mut refusals);
            print_lines(out, &counts, &refusals)
        }
        Err(refusal) => print(out, surveying::settings_refused(refusal.number())),
    }
}

fn main(rt: HostRuntime) -> io::Result<()> {
    survey_site(&rt, &mut io::writer(&rt))
}
