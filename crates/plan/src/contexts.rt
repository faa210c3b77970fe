// The hash that goes with a packet. Nothing uses that of an exempt one, so it is not made.
ghost use Rattle.std.specs.Prelude.{◌≡◌, true};
ghost use Rattle.packet.specs.Read.{longest_packet, reads};
ghost use Rattle.plan.specs.Decided.{used_hash};

// The packet hash, or zeros in the place of one that nothing uses.
#[tactic(auto, using(outgoing::proofs::Steps::joined), unfolding(crate::specs::Decided::used_hash))]
pub fn used_hash(packet: &[u8]) -> [u8; 32]
    requires { reads longest_packet packet.now ≡ true }
    ensures { result ≡ used_hash packet.now }
{
    if forms::exempt(packet) {
        return [0; 32];
    }
    packet::hash_of(packet)
}
