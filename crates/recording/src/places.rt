// The file's numbers: specs/Format.antt, Shape.antt and Writer.antt in code. Each number once.

pub const KIND: u8 = 1;

pub const EDITION: u8 = 1;

pub const LONGEST_FILE: usize = 60_000;

// The file's head: kind, edition, count.
pub const COUNT_AT: usize = 2;

pub const COUNT_WIDTH: usize = 2;

pub const CONTENTS_START: usize = COUNT_AT + COUNT_WIDTH;

// An entry in the contents: clock, port, signature word, offset, length.
pub const CLOCK_WIDTH: usize = 5;

pub const PORT_AT: usize = CLOCK_WIDTH;

pub const WORD_AT: usize = PORT_AT + 1;

pub const OFFSET_AT: usize = WORD_AT + 1;

pub const OFFSET_WIDTH: usize = 4;

pub const LENGTH_AT: usize = OFFSET_AT + OFFSET_WIDTH;

pub const LENGTH_WIDTH: usize = 2;

// The most that a length's two bytes hold.
pub const LONGEST_BODY: usize = 65_535;

pub const ENTRY_WIDTH: usize = LENGTH_AT + LENGTH_WIDTH;

// The most entries that a file has room for.
pub const MOST_ENTRIES: usize = (LONGEST_FILE - CONTENTS_START) / ENTRY_WIDTH;

// A saved relay has the same shape: entries without a head, as many in every edition (`body_count`, editions/specs). It
// stands here because the survey's program may name this crate and not that one.
pub const SAVED_BODIES: usize = 8;

// The longest file of so many entries: in any edition a saved relay has at most so many bytes.
pub const LONGEST_SAVED: usize = CONTENTS_START
    + SAVED_BODIES * (OFFSET_WIDTH + LENGTH_WIDTH + LONGEST_BODY);

// An entry as the writer is given it: a clock of 8 bytes, port, signature word, length.
pub const GIVEN_CLOCK_WIDTH: usize = 8;

pub const GIVEN_WORD_AT: usize = GIVEN_CLOCK_WIDTH + 1;

pub const GIVEN_LENGTH_AT: usize = GIVEN_WORD_AT + 1;

pub const GIVEN_WIDTH: usize = GIVEN_LENGTH_AT + LENGTH_WIDTH;

// Where the bytes start that are an entry's head in the file: the clock's low five, port and signature word.
pub const GIVEN_HEAD_AT: usize = GIVEN_CLOCK_WIDTH - CLOCK_WIDTH;
