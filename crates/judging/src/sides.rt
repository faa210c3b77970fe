// The two sides of a link.
ghost use Rattle.std.specs.Prelude.{◌≡◌, eqb};
ghost use Rattle.octets.specs.Index.{◌and◌};

use rules::Link;

// From the answering port with hops = remaining.
pub fn from_answering_side(link: Link, port: u8, hops: u8) -> bool
    ensures { result ≡ (eqb port link.answering and eqb hops link.remaining.0) }
{
    port == link.answering && hops == link.remaining.0
}

// From the asking port with hops = taken.
pub fn from_asking_side(link: Link, port: u8, hops: u8) -> bool
    ensures { result ≡ (eqb port link.asking and eqb hops link.taken.0) }
{
    port == link.asking && hops == link.taken.0
}
