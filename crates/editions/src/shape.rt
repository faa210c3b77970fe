// A saved file's shape in numbers: specs/ in code. Each number once.
use numbers::{HASH_COUNT, LINK_COUNT, LOCAL_COUNT, RETURN_COUNT};
use recording::{CONTENTS_START, LENGTH_WIDTH, OFFSET_WIDTH};
use tables::places::{
    HASH_WIDTH, LINK_WIDTH, LINKS_AT, LOCAL_WIDTH, RETURN_WIDTH, RING_WIDTH, TABLE_SIZE,
};

// An entry in the contents: offset, length.
pub const ENTRY_WIDTH: usize = OFFSET_WIDTH + LENGTH_WIDTH;

pub const BODY_COUNT: usize = recording::SAVED_BODIES;

// The bodies' lengths, those that are one in every edition: local addresses, links, returns, hashes, tally.
pub const LOCALS_BODY: usize = LOCAL_COUNT * LOCAL_WIDTH;

pub const LINKS_BODY: usize = LINK_COUNT * LINK_WIDTH;

pub const RETURNS_BODY: usize = RING_WIDTH + RETURN_COUNT * RETURN_WIDTH;

pub const HASHES_BODY: usize = RING_WIDTH + HASH_COUNT * HASH_WIDTH;

pub const COUNTER_WIDTH: usize = 4;

pub const TALLY_BODY: usize = 6 * COUNTER_WIDTH;

// Where the bodies stand: those of the tables' sections together are the tables, in the current edition.
pub const BODIES_AT: usize = CONTENTS_START + BODY_COUNT * ENTRY_WIDTH;

// All behind the paths: no edition has it otherwise.
pub const BACK_SIZE: usize = TABLE_SIZE - LINKS_AT;
