// Where each section of the tables stands, and how wide its records are: specs/Places.antt in code. Each number once.
use super::fields::{
    HASH_EXPIRY_AT, LINK_EXPIRY_AT, PATH_BLOBS_AT, PORT_SIZE_AT, RETURN_EXPIRY_AT,
};
use numbers::{
    ADDRESS_WIDTH, BLOB_LIMIT, BLOB_WIDTH, HASH_COUNT, LINK_COUNT, LOCAL_COUNT, LONGEST_PACKET,
    PATH_COUNT, PORT_COUNT, RETURN_COUNT,
};

pub const TIME_WIDTH: usize = 8;

pub const RING_WIDTH: usize = 2;

pub const SETTING_WIDTH: usize = 4;

pub const SIZE_WIDTH: usize = 2;

pub const PORT_WIDTH: usize = PORT_SIZE_AT + SIZE_WIDTH;

// A fresh port's settings: off, boundary, and the longest packet's length for its size.
pub const FRESH_PORT: [u8; PORT_WIDTH] = [
    0,
    0,
    (LONGEST_PACKET / 256) as u8,
    (LONGEST_PACKET % 256) as u8,
];

pub const LOCAL_WIDTH: usize = 1 + ADDRESS_WIDTH;

pub const PATH_WIDTH: usize = PATH_BLOBS_AT + BLOB_LIMIT * BLOB_WIDTH;

pub const LINK_WIDTH: usize = LINK_EXPIRY_AT + TIME_WIDTH;

pub const RETURN_WIDTH: usize = RETURN_EXPIRY_AT + TIME_WIDTH;

pub const HASH_WIDTH: usize = HASH_EXPIRY_AT + TIME_WIDTH;

pub const OWN_AT: usize = 0;

pub const CLOCK_AT: usize = OWN_AT + ADDRESS_WIDTH;

pub const TARGET_AT: usize = CLOCK_AT + TIME_WIDTH;

pub const GRACE_AT: usize = TARGET_AT + SETTING_WIDTH;

pub const PENALTY_AT: usize = GRACE_AT + SETTING_WIDTH;

pub const PORTS_AT: usize = PENALTY_AT + SETTING_WIDTH;

pub const LOCALS_AT: usize = PORTS_AT + PORT_COUNT * PORT_WIDTH;

pub const PATHS_AT: usize = LOCALS_AT + LOCAL_COUNT * LOCAL_WIDTH;

pub const LINKS_AT: usize = PATHS_AT + PATH_COUNT * PATH_WIDTH;

pub const RETURN_NEXT_AT: usize = LINKS_AT + LINK_COUNT * LINK_WIDTH;

pub const RETURNS_AT: usize = RETURN_NEXT_AT + RING_WIDTH;

pub const HASH_NEXT_AT: usize = RETURNS_AT + RETURN_COUNT * RETURN_WIDTH;

pub const HASHES_AT: usize = HASH_NEXT_AT + RING_WIDTH;

pub const TABLE_SIZE: usize = HASHES_AT + HASH_COUNT * HASH_WIDTH;
