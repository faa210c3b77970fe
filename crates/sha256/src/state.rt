// The hash value and the working variables, eight words each, and one round (FIPS 180-4, section 6.2.2, steps 3 and 4).
ghost use Rattle.std.specs.Prelude.{◌≡◌};
ghost use Rattle.sha256.specs.Constants.{initial_hash};
ghost use Rattle.sha256.specs.Compression.{T₁, T₂, after_round, intermediate_hash};
ghost use Rattle.sha256.specs.Sha256.{digest_bytes};

use super::words::{big_sigma0, big_sigma1, ch, maj};

// The words H0 to H7 of a hash value, or the working variables a to h.
#[derive(Clone, Copy)]
pub struct State {
    pub a: u32,
    pub b: u32,
    pub c: u32,
    pub d: u32,
    pub e: u32,
    pub f: u32,
    pub g: u32,
    pub h: u32,
}

pub fn initial_hash() -> State
    ensures { result ≡ initial_hash }
{
    State {
        a: 0x6a09_e667,
        b: 0xbb67_ae85,
        c: 0x3c6e_f372,
        d: 0xa54f_f53a,
        e: 0x510e_527f,
        f: 0x9b05_688c,
        g: 0x1f83_d9ab,
        h: 0x5be0_cd19,
    }
}

// The two temporary words of a round, T1 and T2.
fn temporary1(s: State, k: u32, w: u32) -> u32
    ensures { result ≡ T₁ s k w }
{
    s.h.wrapping_add(big_sigma1(s.e))
        .wrapping_add(ch(s.e, s.f, s.g))
        .wrapping_add(k)
        .wrapping_add(w)
}

fn temporary2(s: State) -> u32
    ensures { result ≡ T₂ s }
{
    big_sigma0(s.a).wrapping_add(maj(s.a, s.b, s.c))
}

// One round, with its constant k and its word w of the schedule.
pub fn round(s: State, k: u32, w: u32) -> State
    ensures { result ≡ after_round s k w }
{
    let t1 = temporary1(s, k, w);
    let t2 = temporary2(s);
    State {
        a: t1.wrapping_add(t2),
        b: s.a,
        c: s.b,
        d: s.c,
        e: s.d.wrapping_add(t1),
        f: s.e,
        g: s.f,
        h: s.g,
    }
}

// The next intermediate hash value, from the last one, s, and the working variables after the rounds, r.
pub fn intermediate_hash(s: State, r: State) -> State
    ensures { result ≡ intermediate_hash s r }
{
    State {
        a: r.a.wrapping_add(s.a),
        b: r.b.wrapping_add(s.b),
        c: r.c.wrapping_add(s.c),
        d: r.d.wrapping_add(s.d),
        e: r.e.wrapping_add(s.e),
        f: r.f.wrapping_add(s.f),
        g: r.g.wrapping_add(s.g),
        h: r.h.wrapping_add(s.h),
    }
}

// The eight words, each with its most significant byte first.
pub fn digest_bytes(s: State) -> [u8; 32]
    ensures { result ≡ digest_bytes s }
{
    let words = [s.a, s.b, s.c, s.d, s.e, s.f, s.g, s.h];
    let mut bytes = [0u8; 32];
    for i in 0..8 {
        bytes[4 * i..4 * i + 4].copy_from_slice(&words[i].to_be_bytes());
    }
    bytes
}
