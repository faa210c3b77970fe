// How what crosses to hosts lies in numbers and bytes: an answer as one number and as text, a tally, the parts of a
// packet, an entry of a recording. Entry points: answer_number, number_text, tally_in, tally_numbers, parts_bytes,
// entry_numbers. None has a `requires`.
#![tactic(auto)]

mod answer_numbers;
mod answer_texts;
mod bits;
mod entries;
mod parts;
mod tallies;

pub use answer_numbers::answer_number;
pub use answer_texts::number_text;
pub use bits::{REFUSAL_SPAN, WIDE_REFUSAL_SPAN};
pub use entries::entry_numbers;
pub use parts::parts_bytes;
pub use tallies::{tally_in, tally_numbers};
