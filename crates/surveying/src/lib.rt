// Surveys of a site's recordings, as document 02's Wish 14 has them: each recording is replayed from the settings of a
// saved relay and nothing else, and what the replays answer is counted by port and by test.
// Entry points: begin, add_recording, line, settings_refused, over what the caller lends: the tables that each
// recording starts from, tables to replay over, the counters, and the recordings' refusals. They have no `requires`,
// and end on any bytes and any numbers.
#![tactic(auto)]

mod counting;
mod fractions;
mod lines;
mod replays;
mod starting;

pub use counting::COUNTER_COUNT;
pub use lines::{LINE_COUNT, line, settings_refused};
pub use replays::add_recording;
pub use starting::begin;

// As many recordings are read.
pub const RECORDING_LIMIT: usize = 16;

// The recordings' refusals: how many were read, then the refusal of each, or 0, and that of one too many.
// Kept: bytes with their count first, as hosts lend them.
pub const REFUSAL_COUNT: usize = 2 + RECORDING_LIMIT;

// A fraction of two numbers.
#[derive(Clone, Copy)]
pub struct Fraction {
    pub above: u64,
    pub below: u64,
}
