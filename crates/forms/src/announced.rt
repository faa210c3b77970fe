// What an announce sets of its path, as far as no table is read for it.
ghost use Rattle.std.specs.Prelude.{◌≡◌, true, ◌≤◌};
ghost use Rattle.packet.specs.Read.{longest_packet, reads};
ghost use Rattle.numbers.specs.Numbers.{path_lifetime, boundary_lifetime};
ghost use Rattle.rules.specs.Writes.{next_hop_of};

use numbers::{ACCESS_POINT_LIFETIME, BOUNDARY_LIFETIME, ROAMING_LIFETIME};

// How long a path lives, by the mode of the arrival port: boundary, access point, roaming.
#[tactic(auto, using(outgoing::proofs::Steps::joined), unfolding(numbers::specs::Numbers::path_lifetime))]
pub fn path_lifetime(mode: u8) -> u64
    ensures { (result ≡ path_lifetime mode) × (result ≤ boundary_lifetime) }
{
    match mode {
        0 => BOUNDARY_LIFETIME,
        1 => ACCESS_POINT_LIFETIME,
        _ => ROAMING_LIFETIME,
    }
}

// The next hop: the relay address, or the destination if type 1.
pub fn next_hop_of(packet: &[u8]) -> [u8; 16]
    requires { reads longest_packet packet.now ≡ true }
    ensures { result ≡ next_hop_of packet.now }
{
    let parts = packet::parts_of(packet);
    if packet::type_two(packet[0]) {
        return parts.relay;
    }
    parts.destination
}
