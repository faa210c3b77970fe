// Announces of our own, as document 02's Wish 12 has them: the bytes that a host signs, and the announce with the
// signature. Entry points: signing_bytes, build. Each ends on any bytes of any length.
#![tactic(auto)]

mod builder;
mod refusing;

ghost use Rattle.announcing.specs.Announcing.{Announce as Given, make_announce};

pub use builder::{build, signing_bytes};
use std::marker::Model;

// What is given beside the signature. An empty ratchet is none.
#[derive(Drop)]
struct Announce<'a> {
    keys: &'a [u8],
    name_hash: &'a [u8],
    random: &'a [u8],
    clock: u64,
    ratchet: &'a [u8],
    app_data: &'a [u8],
}

impl<'a> Model for Announce<'a> {
    ghost Value = { Given };

    ghost view = { λ a. make_announce a.keys.now a.name_hash.now a.random.now a.clock a.ratchet.now a.app_data.now };
}
