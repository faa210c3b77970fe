// Maps of the ports: whether one is one-to-one on 0..15, and the port that goes to a number.
// Helpers: the caller shows that a map has sixteen images.
#![tactic(auto)]

ghost use Rattle.std.specs.Prelude.{◌≡◌, ◌<◌, length};
ghost use Rattle.numbers.specs.Numbers.{port_count};
ghost use Rattle.rules.specs.Renumbering.{differs_before, one_to_one, preimage};

use numbers::PORT_COUNT;

// Whether the image of port i differs from those before it.
fn differs_before(map: &[u8], i: usize) -> bool
    requires { i < length map.now }
    ensures { result ≡ differs_before map.now i }
{
    (0..i).all(|j| map[j] != map[i])
}

pub fn one_to_one(map: &[u8]) -> bool
    requires { length map.now ≡ port_count }
    ensures { result ≡ one_to_one map.now }
{
    (0..PORT_COUNT).all(|i| usize::from(map[i]) < PORT_COUNT && differs_before(map, i))
}

// The port whose image is n, or 16.
pub fn preimage_of(map: &[u8], n: usize) -> usize
    requires { length map.now ≡ port_count }
    ensures { result ≡ preimage map.now n }
{
    map.iter()
        .position(|image| usize::from(*image) == n)
        .unwrap_or(PORT_COUNT)
}
