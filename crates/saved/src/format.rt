// The file's numbers: specs/ in code. Each number once.
use editions::shape::{BODIES_AT, TALLY_BODY};
use tables::places::TABLE_SIZE;

pub const KIND: u8 = 2;

// Where the tally stands, and the file's length: in the current edition the bodies before it are the tables.
pub const TALLY_AT: usize = BODIES_AT + TABLE_SIZE;

pub const SAVED_SIZE: usize = TALLY_AT + TALLY_BODY;
