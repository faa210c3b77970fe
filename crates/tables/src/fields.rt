// Where each field stands in its record: specs/Fields.antt in code. Each number once. A record's first byte is its
// mark, used or not; a port's is its on mark.
use super::places::TIME_WIDTH;
use notes::NOTES_WIDTH;
use numbers::{ADDRESS_WIDTH, DIGEST_WIDTH};

pub const PORT_ON_AT: usize = 0;

pub const PORT_MODE_AT: usize = PORT_ON_AT + 1;

pub const PORT_SIZE_AT: usize = PORT_MODE_AT + 1;

pub const PATH_DESTINATION_AT: usize = 1;

pub const PATH_PORT_AT: usize = PATH_DESTINATION_AT + ADDRESS_WIDTH;

pub const PATH_HOPS_AT: usize = PATH_PORT_AT + 1;

pub const PATH_NEXT_HOP_AT: usize = PATH_HOPS_AT + 1;

pub const PATH_EXPIRY_AT: usize = PATH_NEXT_HOP_AT + ADDRESS_WIDTH;

pub const PATH_LAST_AT: usize = PATH_EXPIRY_AT + TIME_WIDTH;

pub const PATH_VIOLATIONS_AT: usize = PATH_LAST_AT + TIME_WIDTH;

pub const PATH_BLOCKED_UNTIL_AT: usize = PATH_VIOLATIONS_AT + 1;

pub const PATH_NOTES_AT: usize = PATH_BLOCKED_UNTIL_AT + TIME_WIDTH;

pub const PATH_BLOB_COUNT_AT: usize = PATH_NOTES_AT + NOTES_WIDTH;

pub const PATH_BLOBS_AT: usize = PATH_BLOB_COUNT_AT + 1;

pub const LINK_ID_AT: usize = 1;

pub const LINK_ASKING_AT: usize = LINK_ID_AT + ADDRESS_WIDTH;

pub const LINK_ANSWERING_AT: usize = LINK_ASKING_AT + 1;

pub const LINK_TAKEN_AT: usize = LINK_ANSWERING_AT + 1;

pub const LINK_REMAINING_AT: usize = LINK_TAKEN_AT + 1;

pub const LINK_PROVED_AT: usize = LINK_REMAINING_AT + 1;

pub const LINK_EXPIRY_AT: usize = LINK_PROVED_AT + 1;

pub const RETURN_KEY_AT: usize = 1;

pub const RETURN_ARRIVAL_AT: usize = RETURN_KEY_AT + ADDRESS_WIDTH;

pub const RETURN_LEAVING_AT: usize = RETURN_ARRIVAL_AT + 1;

pub const RETURN_EXPIRY_AT: usize = RETURN_LEAVING_AT + 1;

pub const HASH_BYTES_AT: usize = 1;

pub const HASH_EXPIRY_AT: usize = HASH_BYTES_AT + DIGEST_WIDTH;
