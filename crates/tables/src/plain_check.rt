// Four records at once. Plain ones, used, with ports below 16 and times below 2^40, keep row 7, and most used
// records are. A number of each of the four is tested by one comparison: an OR is below a power of two where all of
// them are.
ghost use Rattle.std.specs.Prelude.{◌≡◌, ◌+◌, ◌*◌, ◌≤◌, ◌<◌, eqb, length, get_or};
ghost use Rattle.octets.specs.Index.{all_below};
ghost use Rattle.octets.specs.Part.{part};
ghost use Rattle.octets.specs.BigEndian.{word_width, number};
ghost use Rattle.tables.specs.Groups.{together, ways_plain};

// Whether four records have this mark: the first stands at the start, each so much behind the one before it.
pub fn four_marked(t: &[u8], width: usize, mark: u8) -> bool
    requires { width * 3 < length t.now }
    ensures { result ≡ all_below (λ k. eqb (get_or t.now (width * k) 0) mark) 4 }
{
    t[0] == mark && t[width] == mark && t[width * 2] == mark && t[width * 3] == mark
}

// The OR of four numbers of eight bytes: the first from a place on, each so much behind the one before it.
pub fn four_together(t: &[u8], at: usize, width: usize) -> u64
    requires { at + width * 3 + word_width ≤ length t.now }
    ensures { result ≡ together (λ k. number (part t.now (at + width * k) word_width)) 4 }
{
    octets::number_of_8_at(t, at)
        | octets::number_of_8_at(t, at + width)
        | octets::number_of_8_at(t, at + width * 2)
        | octets::number_of_8_at(t, at + width * 3)
}

// Of two ports and the first six bytes of a time, as one number: whether the ports are below 16 and the time below
// 2^40. The numbers are 16 * 256^7, 256^7, 16 * 256^6, 256^6 and 256^3; the compiler makes one test of the three.
pub fn ways_plain(x: u64) -> bool
    ensures { result ≡ ways_plain x }
{
    x < 1152921504606846976
        && x % 72057594037927936 < 4503599627370496
        && x % 281474976710656 < 16777216
}
