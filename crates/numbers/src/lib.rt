// Document 01's numbers, in code: specs/Numbers.antt has the same as definitions, and each contract that uses one is
// proved with those. And the refusals, by which a call says why it did nothing.
#![tactic(auto)]

mod refusal;
pub mod refusals;

pub use refusal::{Refusal, refused_number};

// The longest packet, and the least output buffer, which has room for it.
pub const LONGEST_PACKET: usize = 500;

pub const LEAST_OUTPUT: usize = 500;

// How many bytes an address has, a packet hash, and a blob of an announce.
pub const ADDRESS_WIDTH: usize = 16;

pub const DIGEST_WIDTH: usize = 32;

pub const BLOB_WIDTH: usize = 10;

// The least size of a port; the greatest is the longest packet.
pub const LEAST_SIZE: usize = 19;

pub const PORT_COUNT: usize = 16;

pub const LOCAL_COUNT: usize = 16;

pub const PATH_COUNT: usize = 64;

pub const BLOB_LIMIT: usize = 64;

pub const LINK_COUNT: usize = 64;

pub const RETURN_COUNT: usize = 512;

pub const HASH_COUNT: usize = 1024;

// Modes: boundary, access point, roaming.
pub const MODE_COUNT: u8 = 3;

// Every clock is below 2^40.
pub const CLOCK_LIMIT: u64 = 1_099_511_627_776;

// A stored time over this is refused.
pub const TIME_LIMIT: u64 = CLOCK_LIMIT + 604_799;

// Settings of the announce rate over these are refused, and violations stop at theirs.
pub const TARGET_LIMIT: u64 = 86_400;

pub const GRACE_LIMIT: u64 = 254;

pub const PENALTY_LIMIT: u64 = 604_800;

pub const VIOLATION_LIMIT: u8 = 255;

// A stored blocked-until over this is refused.
pub const BLOCKED_LIMIT: u64 = CLOCK_LIMIT + 691_199;

// Seconds that a path lives, by the mode of the arrival port.
pub const BOUNDARY_LIFETIME: u64 = 604_800;

pub const ACCESS_POINT_LIFETIME: u64 = 86_400;

pub const ROAMING_LIFETIME: u64 = 21_600;

pub const HASH_LIFETIME: u64 = 300;

pub const RETURN_LIFETIME: u64 = 1_800;

pub const PROVED_LIFETIME: u64 = 720;

// Seconds that an unproved link lives for each remaining hop, and one more.
pub const HOP_LIFETIME: u64 = 6;

// Test 3: the least payload of a link request, and the two lengths that a link proof's may have.
pub const LEAST_LINK_REQUEST: usize = 64;

pub const SHORTER_LINK_PROOF: usize = 96;

pub const LONGER_LINK_PROOF: usize = 99;

// A packet with so many hops goes no further.
pub const HOPS_LIMIT: u8 = 128;
