// What each edition has, in numbers: a row for each, the last one for today's. The next edition adds its row, and where
// a width of today's grows, older rows are rewritten so that they keep their numbers. A path's new fields stand before
// its blobs, new blob places behind them, and the first body's and a port's new fields at their ends.
ghost use Rattle.std.specs.Prelude.{◌≡◌, true, false, MatchOption, ◌<◌};
ghost use Rattle.editions.specs.Editions.{is_known, current_edition, numbered, edition_at, width_at, body_count};
ghost use Rattle.editions.specs.Steps.{start_width, port_width_in, before_blobs, most_blobs, widths_in, blobs_width_in, path_width_in, ports_place, locals_place, paths_place, back_place};

use super::shape::{BODIES_AT, HASHES_BODY, LINKS_BODY, LOCALS_BODY, RETURNS_BODY, TALLY_BODY};
use numbers::{BLOB_LIMIT, BLOB_WIDTH, PATH_COUNT, PORT_COUNT};
use tables::fields::{PATH_BLOB_COUNT_AT, PATH_LAST_AT, PATH_NOTES_AT, PORT_SIZE_AT};
use tables::places::{PORT_WIDTH, PORTS_AT, TARGET_AT};

// The current edition: the last of the rows.
pub const EDITION: u8 = 5;

// Blobs of a path in editions 1 to 3.
const OLDER_BLOB_LIMIT: usize = 16;

// How long the first body is, how wide a port's settings are, how much of a path's record stands before its blobs, and
// how many of these it can hold.
#[derive(Clone, Copy)]
pub struct Widths {
    pub start: usize,
    pub port: usize,
    pub before: usize,
    pub blobs: u8,
}

const WIDTHS: [Widths; EDITION as usize] = [
    Widths {
        start: TARGET_AT,
        port: PORT_SIZE_AT,
        before: PATH_LAST_AT,
        blobs: OLDER_BLOB_LIMIT as u8,
    },
    // the announce rate: settings, and what a path's record has of it
    Widths {
        start: PORTS_AT,
        port: PORT_SIZE_AT,
        before: PATH_NOTES_AT,
        blobs: OLDER_BLOB_LIMIT as u8,
    },
    // a path's mark
    Widths {
        start: PORTS_AT,
        port: PORT_SIZE_AT,
        before: PATH_BLOB_COUNT_AT,
        blobs: OLDER_BLOB_LIMIT as u8,
    },
    // today's limit on blobs
    Widths {
        start: PORTS_AT,
        port: PORT_SIZE_AT,
        before: PATH_BLOB_COUNT_AT,
        blobs: BLOB_LIMIT as u8,
    },
    // a port's size
    Widths {
        start: PORTS_AT,
        port: PORT_WIDTH,
        before: PATH_BLOB_COUNT_AT,
        blobs: BLOB_LIMIT as u8,
    },
];

// A known edition, by its number: 1 to the current one.
#[derive(Clone, Copy)]
pub struct KnownEdition {
    pub number: u8,
    pub ghost known: { is_known number ≡ true },
}

impl KnownEdition {
    pub fn current() -> KnownEdition
        ensures { result.number ≡ current_edition }
    {
        KnownEdition { number: EDITION }
    }

    pub fn numbered(number: u8) -> Option<KnownEdition>
        ensures { MatchOption result (is_known number ≡ false) (λ e. e.number ≡ number) }
    {
        if number == 0 || number > EDITION {
            return None;
        }
        Some(KnownEdition { number })
    }

    // Its row.
    fn widths(self) -> Widths
        ensures { result ≡ widths_in (numbered self.number) }
    {
        WIDTHS[usize::from(self.number) - 1]
    }

    pub fn start_width(self) -> usize
        ensures { result ≡ start_width (numbered self.number) }
    {
        self.widths().start
    }

    pub fn port_width(self) -> usize
        ensures { result ≡ port_width_in (numbered self.number) }
    {
        self.widths().port
    }

    pub fn before_blobs(self) -> usize
        ensures { result ≡ before_blobs (numbered self.number) }
    {
        self.widths().before
    }

    pub fn most_blobs(self) -> u8
        ensures { result ≡ most_blobs (numbered self.number).blob_room }
    {
        self.widths().blobs
    }

    // ---- what follows from these

    // How wide a path's blobs are, with their count.
    pub fn blobs_width(self) -> usize
        ensures { result ≡ blobs_width_in (numbered self.number) }
    {
        1 + BLOB_WIDTH * usize::from(self.most_blobs())
    }

    pub fn path_width(self) -> usize
        ensures { result ≡ path_width_in (numbered self.number) }
    {
        self.before_blobs() + self.blobs_width()
    }

    // How long a body is.
    pub fn width_of(self, body: usize) -> usize
        requires { body < body_count }
        ensures { result ≡ width_at (edition_at self.number) body }
    {
        match body {
            0 => self.start_width(),
            1 => self.port_width() * PORT_COUNT,
            2 => LOCALS_BODY,
            3 => self.path_width() * PATH_COUNT,
            4 => LINKS_BODY,
            5 => RETURNS_BODY,
            6 => HASHES_BODY,
            _ => TALLY_BODY,
        }
    }

    // Where ports, local addresses and paths stand in the file, and what is behind them.
    pub fn ports_place(self) -> usize
        ensures { result ≡ ports_place (numbered self.number) }
    {
        BODIES_AT + self.start_width()
    }

    pub fn locals_place(self) -> usize
        ensures { result ≡ locals_place (numbered self.number) }
    {
        self.ports_place() + self.port_width() * PORT_COUNT
    }

    pub fn paths_place(self) -> usize
        ensures { result ≡ paths_place (numbered self.number) }
    {
        self.locals_place() + LOCALS_BODY
    }

    pub fn back_place(self) -> usize
        ensures { result ≡ back_place (numbered self.number) }
    {
        self.paths_place() + self.path_width() * PATH_COUNT
    }
}
