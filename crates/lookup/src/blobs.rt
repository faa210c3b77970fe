// The blobs of a path, in the bytes of its record.
ghost use Rattle.std.specs.Prelude.{◌≡◌, ◌*◌, ◌≤◌, length};
ghost use Rattle.std.specs.Simd.{first_chunks};
ghost use Rattle.octets.specs.Choice.{same};
ghost use Rattle.packet.specs.Announce.{emission_of};
ghost use Rattle.numbers.specs.Numbers.{blob_limit};
ghost use Rattle.rules.specs.Blobs.{held, is_among, greatest_emission};
ghost use Rattle.tables.specs.Places.{path_width, blob_width};
ghost use Rattle.tables.specs.Records.{blobs_of};
ghost use Rattle.lookup.specs.Search.{last_word};

use numbers::BLOB_WIDTH;
use tables::fields::{PATH_BLOB_COUNT_AT, PATH_BLOBS_AT};

// Where the last eight bytes of a blob start.
const LAST_WORD_AT: usize = BLOB_WIDTH - octets::WORD_WIDTH;

// The bytes of the blobs that the record holds.
fn held_in(b: &[u8]) -> &[u8]
    requires { (length b.now ≡ path_width) × ((blobs_of b.now).count ≤ blob_limit) }
    ensures long { length result.now ≡ blob_width * (blobs_of b.now).count }
    ensures blobs { first_chunks blob_width (blobs_of b.now).count result.now ≡ held (blobs_of b.now) }
{
    let count = usize::from(b[PATH_BLOB_COUNT_AT]);
    &b[PATH_BLOBS_AT..PATH_BLOBS_AT + BLOB_WIDTH * count]
}

// Whether two blobs are the same. `last` are the last eight bytes of the second: they are compared first, as one number.
fn is_blob(one: &[u8], blob: &[u8], last: u64) -> bool
    requires { (length one.now ≡ blob_width) × (length blob.now ≡ blob_width) × (last ≡ last_word blob.now) }
    ensures { result ≡ same one.now blob.now }
{
    octets::word_at(one, LAST_WORD_AT) == last && one == blob
}

// Whether the record holds the blob.
pub fn has_blob(b: &[u8], blob: &[u8]) -> bool
    requires { (length b.now ≡ path_width) × (length blob.now ≡ blob_width)
        × ((blobs_of b.now).count ≤ blob_limit) }
    ensures { result ≡ is_among blob.now (held (blobs_of b.now)) }
{
    let last = octets::word_at(blob, LAST_WORD_AT);
    held_in(b)
        .chunks_exact(BLOB_WIDTH)
        .any(|one| is_blob(one, blob, last))
}

// 256 ^ 5: below it is what the five bytes of an emission write.
const FIVE_BYTES: u64 = 1_099_511_627_776;

// The emission of a blob, its last five bytes, by one load of its last eight.
fn emission_of(blob: &[u8]) -> u64
    requires { length blob.now ≡ blob_width }
    ensures { result ≡ emission_of blob.now }
{
    octets::number_of_8_at(blob, LAST_WORD_AT) % FIVE_BYTES
}

// The greatest emission among the record's blobs.
pub fn greatest_of(b: &[u8]) -> u64
    requires { (length b.now ≡ path_width) × ((blobs_of b.now).count ≤ blob_limit) }
    ensures { result ≡ greatest_emission (held (blobs_of b.now)) }
{
    held_in(b)
        .chunks_exact(BLOB_WIDTH)
        .fold(0, |most, blob| emission_of(blob).max(most))
}
