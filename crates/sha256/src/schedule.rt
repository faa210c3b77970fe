// The message schedule of a block (FIPS 180-4, section 6.2.2, step 1).
ghost use Rattle.std.specs.Prelude.{◌≡◌, ◌+◌, ◌<◌, ◌≤◌, ◌++◌, length, replicate};
ghost use Rattle.sha256.specs.Bytes.{word_at};
ghost use Rattle.sha256.specs.Compression.{expanded_word, W};
ghost use Rattle.sha256.specs.Steps.{expanded_from};

use super::words::{small_sigma0, small_sigma1};

// The word whose four bytes stand at place i.
fn word(b: &[u8], i: usize) -> u32
    requires { i + 4 ≤ length b.now }
    ensures { result ≡ word_at b.now i }
{
    u32::from_be_bytes([b[i], b[i + 1], b[i + 2], b[i + 3]])
}

// Word t from the words before it.
fn expanded_word(w: &[u32; 64], t: usize) -> u32
    requires { (16 ≤ t) × (t < 64) }
    ensures { result ≡ expanded_word w.now t }
{
    small_sigma1(w[t - 2])
        .wrapping_add(w[t - 7])
        .wrapping_add(small_sigma0(w[t - 15]))
        .wrapping_add(w[t - 16])
}

// The first 16 words of the schedule, which are the block's, and room for the others.
pub fn first_words(block: &[u8]) -> [u32; 64]
    requires { length block.now ≡ 64 }
    ensures { result ≡ W block.now 16 ++ replicate 48 0 }
{
    let mut w = [0u32; 64];
    for t in 0..16 {
        w[t] = word(block, 4 * t);
    }
    w
}

// Sets eight more words, from word t on.
pub fn extend(w: &mut [u32; 64], t: usize)
    requires { (16 ≤ t) × (t + 8 ≤ 64) }
    ensures { w.new ≡ expanded_from w.old t 8 }
{
    for i in t..t + 8 {
        w[i] = expanded_word(w, i);
    }
}
