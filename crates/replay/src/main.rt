// Replays a recording over a saved relay, `replay TABLES RECORDING`: a line for each entry on standard output. A
// recording that is refused gives one line, `refused` and the number, and so does a file of tables that can't be
// loaded, `tables refused` and the load's number. The recording's refusal comes first.
#![tactic(auto)]

ghost use Rattle.std.specs.Prelude.{◌≡◌, ℕ, List, OnOk};
ghost use Rattle.std.specs.Io.KnownBytes.{Appends};
ghost use Rattle.recording.specs.Shape.{count_of};
ghost use Rattle.replaying.specs.Promise.{steps_on};
ghost use Rattle.text.specs.Text.{text_of};
ghost use Rattle.recording.specs.Reader.{file_refusal};
ghost use Rattle.replay.specs.Line.{tables_refused};
ghost use Rattle.replay.specs.Replayed.{replayed};

use console::{print, read_file, zeros};
use recording::{LONGEST_FILE, LONGEST_SAVED};
use rules::Tally;
use std::env::Env;
use std::io;
use std::io::Write;
use std::rt::Files;
use tables::places::TABLE_SIZE;
use text::{Text, with_character, with_number, with_text, with_word};

// One byte more than the longest saved relay and the longest recording, so that longer files show.
const SAVED_ROOM: usize = LONGEST_SAVED + 1;

const RECORDING_ROOM: usize = LONGEST_FILE + 1;

fn tables_refused(refusal: u8) -> Text
    ensures { result ≡ text_of (tables_refused refusal) }
{
    let start = with_word(with_text(text::empty(), b"tables"), b"refused");
    with_character(with_number(start, u64::from(refusal)), b'\n')
}

// Replays all entries, and prints the line of each. What the calls leave in the tables is what all steps leave, also
// where a line can't be printed: that fails once all steps are made.
fn replay<W: Write>(out: &mut W, file: &[u8], tables: &mut [u8], counts: Tally) -> io::Result<()>
    ensures tables { tables.new ≡ (steps_on file.now (count_of file.now) tables.old counts).tables }
    ensures lines { OnOk result (Appends (W.contents out.old) (W.contents out.new) (steps_on file.now (count_of file.now) tables.old counts).text) }
{
    let mut tally = counts;
    let mut printed = Ok(());
    for i in 0..recording::count(file) {
        let stepped = replaying::step(file, i, tables, tally);
        if let Some(line) = stepped.line {
            printed = printed.and(print(out, line));
        }
        tally = stepped.tally;
    }
    printed
}

// Loads the saved relay, and replays the recording over it.
fn replay_over<W: Write>(out: &mut W, stored: &[u8], file: &[u8]) -> io::Result<()>
    requires { file_refusal file.now ≡ 0 }
    ensures { OnOk result (Appends (W.contents out.old) (W.contents out.new) (replayed stored.now file.now)) }
{
    let mut tables = [0u8; TABLE_SIZE];
    match saved::load(stored, &mut tables) {
        Ok(tally) => replay(out, file, &mut tables, tally),
        Err(refusal) => print(out, tables_refused(refusal.number())),
    }
}

// Answers a recording. The saved relay is read only where the recording isn't refused.
fn answer<R: Env + Files + Eprint + Alloc, W: Write>(
    rt: &R,
    out: &mut W,
    file: &[u8],
) -> io::Result<()>
    ensures { (stored : List ℕ) × OnOk result (Appends (W.contents out.old) (W.contents out.new) (replayed stored file.now)) }
{
    if let Err(refusal) = recording::check(file) {
        return print(out, text::refused_line(refusal.number()));
    }
    let mut stored: [u8; SAVED_ROOM] = zeros();
    let held = read_file(rt, 1, &mut stored);
    replay_over(out, &stored[..held], file)
}

fn main(rt: HostRuntime) -> io::Result<()> {
    let mut file: [u8; RECORDING_ROOM] = zeros();
    let size = read_file(&rt, 2, &mut file);
    answer(&rt, &mut io::writer(&rt), &file[..size])
}
