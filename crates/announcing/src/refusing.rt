// The refusals of both calls, by lengths.
ghost use Rattle.std.specs.Prelude.{◌≡◌, length};
ghost use Rattle.numbers.specs.Refusals.{refused_number};
ghost use Rattle.announcing.specs.Announcing.{wrong_lengths};
ghost use Rattle.announcing.specs.Steps.{refusal_by};

use super::Announce;
use numbers::{CLOCK_LIMIT, LEAST_OUTPUT, LONGEST_PACKET, Refusal};
use packet::places::{
    KEYS_WIDTH, LEAST_ANNOUNCE, NAME_HASH_WIDTH, RANDOM_WIDTH, RATCHET_WIDTH, SIGNATURE_WIDTH,
    TYPE_ONE_START,
};

// The announce without a ratchet and app data.
pub const LEAST_LENGTH: usize = TYPE_ONE_START + LEAST_ANNOUNCE;

impl Announce<'_> {
    // Whether a length is wrong, the signature's among them. A ratchet may be missing.
    fn wrong_lengths(&self, signature: usize) -> bool
        ensures { result
            ≡ wrong_lengths (length self.now.keys) (length self.now.name_hash) (length self.now.random)
            (length self.now.ratchet) signature }
    {
        self.keys.len() != KEYS_WIDTH
            || self.name_hash.len() != NAME_HASH_WIDTH
            || self.random.len() != RANDOM_WIDTH
            || self.ratchet.len() != 0 && self.ratchet.len() != RATCHET_WIDTH
            || signature != SIGNATURE_WIDTH
    }

    // Whether the announce may be built with a signature of this length in so much room, or why not.
    pub fn check(&self, signature: usize, room: usize) -> Result<(), Refusal>
        ensures { refused_number result ≡ refusal_by self.now signature room }
    {
        if self.wrong_lengths(signature) {
            return Err(Refusal::AnnouncePart);
        }
        if self.clock >= CLOCK_LIMIT {
            return Err(Refusal::Clock);
        }
        if self.app_data.len() > LONGEST_PACKET - LEAST_LENGTH - self.ratchet.len() {
            return Err(Refusal::AnnounceTooLong);
        }
        if room < LEAST_OUTPUT {
            return Err(Refusal::Output);
        }
        Ok(())
    }
}
