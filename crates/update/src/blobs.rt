// The blobs of a path's record: their count, and behind it the blob places, the blob stored longest ago first.
ghost use Rattle.std.specs.Prelude.{◌≡◌, ◌++◌, ◌+◌, length};
ghost use Rattle.octets.specs.Part.{part, patch};
ghost use Rattle.numbers.specs.Numbers.{blob_limit};
ghost use Rattle.rules.specs.Blobs.{one_blob, add_blob};
ghost use Rattle.tables.specs.Places.{blob_width};
ghost use Rattle.tables.specs.Fields.{blobs_width, blob_places_at};
ghost use Rattle.tables.specs.Records.{blobs_bytes};
ghost use Rattle.update.specs.Written.{newer_width, blobs_in};

use numbers::{BLOB_LIMIT, BLOB_WIDTH};

// Where the blob places stand, where the second one does, and how many bytes those behind the oldest take.
const PLACES_AT: usize = 1;

const SECOND_AT: usize = PLACES_AT + BLOB_WIDTH;

const NEWER: usize = (BLOB_LIMIT - 1) * BLOB_WIDTH;

// A new path's blobs: one, and spare places of zeros.
pub fn one_blob(s: &mut [u8], blob: [u8; 10])
    requires { length s.old ≡ blobs_width }
    ensures { s.new ≡ blobs_bytes (one_blob blob_limit blob) }
{
    octets::set_at(s, 0, 1);
    octets::copy_at(s, PLACES_AT, &blob);
    s[SECOND_AT..SECOND_AT + NEWER].fill(0);
}

// Moves all blobs one place down, over the oldest, and puts the new one into the last place.
fn push_blob(s: &mut [u8], blob: [u8; 10])
    requires { length s.old ≡ blobs_width }
    ensures { s.new ≡ patch s.old blob_places_at
        (part s.old (blob_places_at + blob_width) newer_width ++ blob) }
{
    s.copy_within(SECOND_AT..SECOND_AT + NEWER, PLACES_AT);
    octets::copy_at(s, PLACES_AT + NEWER, &blob);
}

// Adds a blob; where all places are held, the one stored longest ago goes.
pub fn add_blob(s: &mut [u8], blob: [u8; 10])
    requires { length s.old ≡ blobs_width }
    ensures { s.new ≡ blobs_bytes (add_blob blob_limit blob (blobs_in s.old)) }
{
    let count = usize::from(s[0]);
    if count < BLOB_LIMIT {
        s[0] += 1;
        octets::copy_at(s, PLACES_AT + BLOB_WIDTH * count, &blob);
    } else {
        push_blob(s, blob);
    }
}
