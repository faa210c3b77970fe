// Saved tables, as document 02's Wish 4 has them: a relay's tables and tally as a file, and back.
// Entry points: save, load, own_address. Each ends on any bytes of any length; a refusal changes nothing.
// What a file holds in each edition, and how older ones are read: the crate `editions`.
#![tactic(auto)]

mod contents;
mod format;
mod loading;
mod saving;

pub use format::SAVED_SIZE;
pub use loading::{load, own_address};
pub use saving::save;
