// The refusals by name: document 01's first. The names are those of the library's header.
pub const NONE: u8 = 0;

pub const TOO_SHORT: u8 = 1;

pub const TOO_LONG: u8 = 2;

pub const ACCESS_CODE: u8 = 3;

pub const ARRIVAL_PORT: u8 = 4;

pub const CLOCK: u8 = 5;

pub const OUTPUT: u8 = 6;

pub const TABLES: u8 = 7;

pub const MAP: u8 = 8;

pub const SETTING: u8 = 9;

pub const LOCAL_FULL: u8 = 10;

pub const LOCAL_ADDRESS: u8 = 11;

// Those of document 02: a mark's, those of recordings and saved files, of announces of our own, of the second opinion
// and of the survey.
pub const NO_LIVE_PATH: u8 = 12;

pub const FILE_LENGTH: u8 = 20;

pub const FILE_KIND: u8 = 21;

pub const FILE_PLACE: u8 = 22;

pub const SIGNATURE_WORD: u8 = 23;

pub const FILE_BODY: u8 = 24;

pub const ROOM: u8 = 25;

pub const ANNOUNCE_PART: u8 = 26;

pub const ANNOUNCE_TOO_LONG: u8 = 27;

pub const LIST_FULL: u8 = 28;

pub const SURVEY_FULL: u8 = 29;
