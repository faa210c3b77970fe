// Row 7 for the records of a ring, returns or hashes, which fill most of the tables. What is all zeros is passed by one
// OR over its bytes, in groups, where four records spread over the group are unused. A group whose records are all
// plain is passed by fours; in any other, four records are tested for plain ports and times at once, and then each for
// its mark and zeros.
ghost use Rattle.std.specs.Prelude.{◌≡◌, ℕ, ◌+◌, ◌*◌, Bool, List, ltb, length};
ghost use Rattle.octets.specs.Index.{◌and◌};
ghost use Rattle.octets.specs.Part.{part};
ghost use Rattle.octets.specs.BigEndian.{number};
ghost use Rattle.numbers.specs.Numbers.{clock_limit, return_count, hash_count};
ghost use Rattle.tables.specs.Places.{ring_width, return_width, hash_width};
ghost use Rattle.tables.specs.Fields.{return_arrival_at, hash_expiry_at};
ghost use Rattle.tables.specs.Records.{return_bytes_ok, hash_bytes_ok};
ghost use Rattle.tables.specs.Layout.{records_ok};
ghost use Rattle.tables.specs.Groups.{group_size, ways_plain, plain, Grouped};

use super::fields::{HASH_EXPIRY_AT, RETURN_ARRIVAL_AT};
use super::places::{HASH_WIDTH, HASHES_AT, RETURN_WIDTH, RETURNS_AT, RING_WIDTH};
use super::plain_check::{four_marked, four_together, ways_plain};
use super::record_check::{hash_ok, return_ok, used_or_zero};
use numbers::{CLOCK_LIMIT, HASH_COUNT, RETURN_COUNT};

// Records of a group, and how far from one to the next of four that are spread over it. The bytes of a group are a
// multiple of 16.
const GROUP: usize = 128;

const SPREAD: usize = GROUP / 3;

// Where in a group the next bytes start that stand at a multiple of 16 in the tables, which hosts have at such a place.
const RETURNS_FROM: usize = 16 - RETURNS_AT % 16;

const HASHES_FROM: usize = 16 - HASHES_AT % 16;

// The records of a ring: how many, their width, where in one the eight bytes start that are small in a plain
// one, and from where on in a group words are read.
pub trait InRing {
    ghost COUNT: { ℕ };

    ghost WIDTH: { ℕ };

    ghost WORD_AT: { ℕ };

    ghost FROM: { ℕ };

    ghost fine: { List ℕ → Bool };

    ghost small: { ℕ → Bool };

    const COUNT: usize;

    const WIDTH: usize;

    const WORD_AT: usize;

    const FROM: usize;

    // Row 7 for one record.
    fn is_ok(b: &[u8]) -> bool
        requires { length b.now ≡ WIDTH }
        ensures { result ≡ fine b.now };

    // Whether these eight bytes, as one number, are small as a plain one's. An OR of several is where each of them is.
    fn is_small(word: u64) -> bool
        ensures { result ≡ small word };
}

pub struct Returns;

impl InRing for Returns {
    ghost COUNT = { return_count };

    ghost WIDTH = { return_width };

    ghost WORD_AT = { return_arrival_at };

    ghost use Rattle.tables.specs.declared.ring_check.TheConstants.{RETURNS_FROM};

    ghost FROM = { RETURNS_FROM };

    ghost fine = { return_bytes_ok };

    ghost small = { ways_plain };

    const COUNT: usize = RETURN_COUNT;

    const WIDTH: usize = RETURN_WIDTH;

    const WORD_AT: usize = RETURN_ARRIVAL_AT;

    const FROM: usize = RETURNS_FROM;

    fn is_ok(b: &[u8]) -> bool {
        return_ok(b)
    }

    fn is_small(word: u64) -> bool {
        ways_plain(word)
    }
}

pub struct Hashes;

impl InRing for Hashes {
    ghost COUNT = { hash_count };

    ghost WIDTH = { hash_width };

    ghost WORD_AT = { hash_expiry_at };

    ghost use Rattle.tables.specs.declared.ring_check.TheConstants.{HASHES_FROM};

    ghost FROM = { HASHES_FROM };

    ghost fine = { hash_bytes_ok };

    ghost small = { λ x. ltb x clock_limit };

    const COUNT: usize = HASH_COUNT;

    const WIDTH: usize = HASH_WIDTH;

    const WORD_AT: usize = HASH_EXPIRY_AT;

    const FROM: usize = HASHES_FROM;

    fn is_ok(b: &[u8]) -> bool {
        hash_ok(b)
    }

    fn is_small(word: u64) -> bool {
        word < CLOCK_LIMIT
    }
}

fn four_plain<R: InRing>(four: &[u8]) -> bool
    requires long { length four.now ≡ R.WIDTH * 4 }
    requires grouped { Grouped R.COUNT R.WIDTH R.WORD_AT R.FROM R.fine R.small }
    ensures { result ≡ records_ok (plain R.WORD_AT R.small) 0 R.WIDTH 4 four.now }
{
    four_marked(four, R::WIDTH, 1) && R::is_small(four_together(four, R::WORD_AT, R::WIDTH))
}

// Two fours a step: with one, a check of full tables takes a thirtieth longer.
fn eight_plain<R: InRing>(eight: &[u8]) -> bool
    requires long { length eight.now ≡ R.WIDTH * 8 }
    requires grouped { Grouped R.COUNT R.WIDTH R.WORD_AT R.FROM R.fine R.small }
    ensures { result ≡ records_ok (plain R.WORD_AT R.small) 0 R.WIDTH 8 eight.now }
{
    let (four, other) = eight.split_at(R::WIDTH * 4);
    four_plain::<R>(four) && four_plain::<R>(other)
}

// A mark is looked at once, and of a used record, as the compiler has it, no more.
fn four_ok<R: InRing>(four: &[u8]) -> bool
    requires long { length four.now ≡ R.WIDTH * 4 }
    requires grouped { Grouped R.COUNT R.WIDTH R.WORD_AT R.FROM R.fine R.small }
    ensures { result ≡ records_ok R.fine 0 R.WIDTH 4 four.now }
{
    if R::is_small(four_together(four, R::WORD_AT, R::WIDTH)) {
        four.chunks_exact(R::WIDTH).all(used_or_zero)
    } else {
        four.chunks_exact(R::WIDTH).all(|b| R::is_ok(b))
    }
}

fn group_ok<R: InRing>(group: &[u8]) -> bool
    requires long { length group.now ≡ R.WIDTH * group_size }
    requires grouped { Grouped R.COUNT R.WIDTH R.WORD_AT R.FROM R.fine R.small }
    ensures { result ≡ records_ok R.fine 0 R.WIDTH group_size group.now }
{
    four_marked(group, R::WIDTH * SPREAD, 0) && octets::is_zero(group, R::FROM)
        || group
            .chunks_exact(R::WIDTH * 8)
            .all(|eight| eight_plain::<R>(eight))
        || group
            .chunks_exact(R::WIDTH * 4)
            .all(|four| four_ok::<R>(four))
}

// A ring: the place that is written next, and its records.
pub fn ring_ok<R: InRing>(ring: &[u8]) -> bool
    requires long { length ring.now ≡ ring_width + R.WIDTH * R.COUNT }
    requires grouped { Grouped R.COUNT R.WIDTH R.WORD_AT R.FROM R.fine R.small }
    ensures { result ≡ (ltb (number (part ring.now 0 ring_width)) R.COUNT
        and records_ok R.fine ring_width R.WIDTH R.COUNT ring.now) }
{
    octets::number_at(ring, 0, RING_WIDTH) < R::COUNT as u64
        && ring[RING_WIDTH..]
            .chunks_exact(R::WIDTH * GROUP)
            .all(|group| group_ok::<R>(group))
}
