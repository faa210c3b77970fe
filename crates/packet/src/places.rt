// How wide the fields of a packet and of an announce's payload are, and where they stand: those of specs/Places.antt,
// in code, and the sums that code needs as one number.
use numbers::{ADDRESS_WIDTH, BLOB_WIDTH};

pub const HOPS_AT: usize = 1;

// The destination in type 1, the relay address in type 2, which has the destination behind it.
pub const ADDRESS_AT: usize = HOPS_AT + 1;

pub const SECOND_ADDRESS_AT: usize = ADDRESS_AT + ADDRESS_WIDTH;

pub const TYPE_ONE_CONTEXT_AT: usize = ADDRESS_AT + ADDRESS_WIDTH;

pub const TYPE_TWO_CONTEXT_AT: usize = SECOND_ADDRESS_AT + ADDRESS_WIDTH;

// Where the payload starts.
pub const TYPE_ONE_START: usize = TYPE_ONE_CONTEXT_AT + 1;

pub const TYPE_TWO_START: usize = TYPE_TWO_CONTEXT_AT + 1;

// Destination and context: what either type has right before the payload.
pub const END_WIDTH: usize = ADDRESS_WIDTH + 1;

// Of a link request's payload, what its link id is made of.
pub const LINK_PAYLOAD_WIDTH: usize = 64;

// Destination, context, and that payload.
pub const LINK_PART_WIDTH: usize = END_WIDTH + LINK_PAYLOAD_WIDTH;

pub const KEYS_WIDTH: usize = 64;

pub const NAME_HASH_AT: usize = KEYS_WIDTH;

pub const NAME_HASH_WIDTH: usize = 10;

// The blob: random bytes, and the emission time.
pub const BLOB_AT: usize = NAME_HASH_AT + NAME_HASH_WIDTH;

pub const RANDOM_WIDTH: usize = 5;

pub const EMISSION_WIDTH: usize = 5;

// Where the blob ends; behind it the ratchet, where there is one, and the signature.
pub const BLOB_END: usize = BLOB_AT + BLOB_WIDTH;

pub const RATCHET_WIDTH: usize = 32;

pub const SIGNATURE_WIDTH: usize = 64;

// An announce's least payload, without a ratchet and with one: all fields but the app data.
pub const LEAST_ANNOUNCE: usize = BLOB_END + SIGNATURE_WIDTH;

pub const LEAST_ANNOUNCE_WITH_RATCHET: usize = LEAST_ANNOUNCE + RATCHET_WIDTH;
