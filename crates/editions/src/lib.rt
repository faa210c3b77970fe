// The editions of saved tables, as document 02's Wish 4 and the later ones have them: how long each one's bodies are,
// and a file of any edition as today's tables.
// Entry points: none. Saving and loading (crates/saved) call these.
// specs/Editions.antt lists the editions, rows.rt has their numbers, and older.rt puts zeros where one lacks bytes. The
// next edition opens specs/Editions.antt (its record, and what older ones have for what it brings), rows.rt (its row)
// and proofs/EachBrings.antt (how it was brought); a form that every edition so far has alike becomes a field of
// `Edition` and of `Brings`. What isn't zeros in older files, or lies in a port, is a conversion of its own in
// older.rt.
#![tactic(auto)]

mod older;
mod rows;
pub mod shape;

pub use older::Bodies;
pub use rows::{EDITION, KnownEdition};
