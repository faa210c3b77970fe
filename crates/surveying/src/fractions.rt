// Fractions in lowest terms.
ghost use Rattle.std.specs.Prelude.{◌≡◌};
ghost use Rattle.surveying.specs.Fraction.{greatest_common_divisor, share as share_of};

use super::Fraction;

// By Euclid: two numbers have the divisors that the second and the remainder have.
fn greatest_common_divisor(a: u64, b: u64) -> u64
    ensures { result ≡ greatest_common_divisor a b }
{
    let mut x = a;
    let mut y = b;
    while y != 0 {
        let rest = x % y;
        x = y;
        y = rest;
    }
    x
}

// The share of packets dropped: 0/1 where none came.
pub fn share(dropped: u64, packets: u64) -> Fraction
    ensures { result ≡ share_of dropped packets }
{
    if packets == 0 {
        return Fraction { above: 0, below: 1 };
    }
    let divisor = greatest_common_divisor(dropped, packets);
    Fraction {
        above: dropped / divisor,
        below: packets / divisor,
    }
}
