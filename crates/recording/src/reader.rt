// Reading a recording: its refusals, and one entry by its place.
ghost use Rattle.std.specs.Prelude.{◌≡◌, ◌+◌, ◌≤◌, ◌<◌, length};
ghost use Rattle.octets.specs.Listed.{first_of};
ghost use Rattle.numbers.specs.Refusals.{refused_number};
ghost use Rattle.recording.specs.Shape.{count_limit, entry_place, count_of, offset_of, length_of};
ghost use Rattle.recording.specs.Format.{head_width};
ghost use Rattle.recording.specs.Reader.{word_of, file_refusal, fields_as, fields_of, body_of};
ghost use Rattle.recording.specs.Steps.{contents_rows};

use super::EntryHead;
use super::places::{
    CLOCK_WIDTH, CONTENTS_START, COUNT_AT, COUNT_WIDTH, EDITION, ENTRY_WIDTH, KIND, LENGTH_AT,
    LENGTH_WIDTH, LONGEST_FILE, OFFSET_AT, OFFSET_WIDTH, PORT_AT, WORD_AT,
};
use numbers::Refusal;

// The number of entries that the file says it has, 0 where it is too short to say.
pub fn count(file: &[u8]) -> usize
    ensures { result ≡ count_of file.now }
{
    if file.len() < CONTENTS_START {
        return 0;
    }
    octets::number_at(file, COUNT_AT, COUNT_WIDTH) as usize
}

// Where entry i stands in the contents; at the count, where the contents end.
pub fn entry_place(i: usize) -> usize
    requires { i < count_limit }
    ensures { result ≡ entry_place head_width i }
{
    CONTENTS_START + ENTRY_WIDTH * i
}

fn offset_of(file: &[u8], i: usize) -> usize
    requires { entry_place head_width (i + 1) ≤ length file.now }
    ensures { result ≡ offset_of head_width file.now i }
{
    octets::number_at(
        file,
        CONTENTS_START + ENTRY_WIDTH * i + OFFSET_AT,
        OFFSET_WIDTH,
    ) as usize
}

fn length_of(file: &[u8], i: usize) -> usize
    requires { entry_place head_width (i + 1) ≤ length file.now }
    ensures { result ≡ length_of head_width file.now i }
{
    octets::number_at(
        file,
        CONTENTS_START + ENTRY_WIDTH * i + LENGTH_AT,
        LENGTH_WIDTH,
    ) as usize
}

fn word_of(file: &[u8], i: usize) -> u8
    requires { entry_place head_width (i + 1) ≤ length file.now }
    ensures { result ≡ word_of file.now i }
{
    file[CONTENTS_START + ENTRY_WIDTH * i + WORD_AT]
}

// Refusals 22 and 23 of a file that has the contents of its n entries, in one pass over these. An OR over the words is
// under 2 where each is.
fn check_contents(file: &[u8], n: usize) -> Result<(), Refusal>
    requires { (n ≡ count_of file.now) × (entry_place head_width n ≤ length file.now) × (n < count_limit) }
    ensures { refused_number result ≡ first_of (contents_rows file.now) 0 }
{
    let mut words: u8 = 0;
    let mut place = entry_place(n);
    for i in 0..n {
        if offset_of(file, i) != place {
            return Err(Refusal::FilePlace);
        }
        place += length_of(file, i);
        words |= word_of(file, i);
    }
    if place != file.len() {
        return Err(Refusal::FilePlace);
    }
    if words > 1 {
        return Err(Refusal::SignatureWord);
    }
    Ok(())
}

// Whether a file is a recording, or why not.
pub fn check(file: &[u8]) -> Result<(), Refusal>
    ensures { refused_number result ≡ file_refusal file.now }
{
    if file.len() > LONGEST_FILE || file.len() < CONTENTS_START {
        return Err(Refusal::FileLength);
    }
    let n = count(file);
    if file.len() < entry_place(n) {
        return Err(Refusal::FileLength);
    }
    if file[0] != KIND || file[1] != EDITION {
        return Err(Refusal::FileKind);
    }
    check_contents(file, n)
}

// Entry i of any bytes. It isn't there where it isn't counted, or its place or its body lies outside the file.
pub fn entry(file: &[u8], i: usize) -> Option<EntryHead>
    ensures { fields_as result ≡ fields_of file.now i }
{
    if i >= count(file) {
        return None;
    }
    let at = entry_place(i);
    if file.len() < at + ENTRY_WIDTH {
        return None;
    }
    let start = offset_of(file, i);
    let length = length_of(file, i);
    if file.len() < start + length {
        return None;
    }
    Some(EntryHead {
        clock: octets::number_at(file, at, CLOCK_WIDTH),
        port: file[at + PORT_AT],
        word: word_of(file, i),
        start,
        length,
    })
}

// The body of entry i: a part of the file that was lent, not a copy. Empty where the entry isn't there.
pub fn body(file: &[u8], i: usize) -> &[u8]
    ensures { result.now ≡ body_of file.now i }
{
    match entry(file, i) {
        Some(head) => &file[head.start..head.start + head.length],
        None => &[],
    }
}
