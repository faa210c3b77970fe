// Where the parts of the log lie, how wide they are, and the kinds of its entries: those of specs/Log.antt, in code.
// Each number once. How many calls are listed is `list_limit`, history/specs/Opinion.antt.
use numbers::{ADDRESS_WIDTH, LONGEST_PACKET};

pub const LIST_LIMIT: usize = 64;

pub const COUNT_AT: usize = ADDRESS_WIDTH;

pub const ENTRIES_AT: usize = COUNT_AT + 1;

pub const KIND_AT: usize = 0;

pub const PORT_AT: usize = KIND_AT + 1;

pub const WORD_AT: usize = PORT_AT + 1;

pub const MODE_AT: usize = WORD_AT + 1;

pub const CLOCK_AT: usize = MODE_AT + 1;

pub const CLOCK_WIDTH: usize = 5;

pub const LENGTH_AT: usize = CLOCK_AT + CLOCK_WIDTH;

pub const LENGTH_WIDTH: usize = 2;

pub const BODY_AT: usize = LENGTH_AT + LENGTH_WIDTH;

pub const ENTRY_WIDTH: usize = BODY_AT + LONGEST_PACKET;

pub const LOG_SIZE: usize = ENTRIES_AT + ENTRY_WIDTH * LIST_LIMIT;

// In the body of an entry that sets the rate.
pub const TARGET_WIDTH: usize = 3;

pub const GRACE_WIDTH: usize = 1;

pub const PENALTY_WIDTH: usize = 3;

pub const GRACE_AT: usize = TARGET_WIDTH;

pub const PENALTY_AT: usize = GRACE_AT + GRACE_WIDTH;

pub const RATE_WIDTH: usize = PENALTY_AT + PENALTY_WIDTH;

// Kinds of entries.
pub const RENUMBERS: u8 = 0;

pub const CAME: u8 = 1;

pub const SETS_PORT: u8 = 2;

pub const SETS_RATE: u8 = 3;

pub const ADDS: u8 = 4;

pub const REMOVES: u8 = 5;

pub const MARKS: u8 = 6;
