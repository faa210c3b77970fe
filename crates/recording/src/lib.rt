// Recordings, as document 02's Wish 1 has them: the file's reader and its writer.
// Entry points: check, count, entry, body, write. Each ends on any bytes of any length.
#![tactic(auto)]

mod places;
mod reader;
mod writer;

pub use places::{
    CONTENTS_START, COUNT_AT, COUNT_WIDTH, LENGTH_WIDTH, LONGEST_FILE, LONGEST_SAVED, OFFSET_WIDTH,
    SAVED_BODIES,
};
pub use reader::{body, check, count, entry};
pub use writer::write;

// Entry i of a file: clock, port and signature word, and its body's place.
#[derive(Clone, Copy)]
pub struct EntryHead {
    pub clock: u64,
    pub port: u8,
    pub word: u8,
    pub start: usize,
    pub length: usize,
}
