// The parts of a packet in bytes.
ghost use Rattle.std.specs.Prelude.{◌≡◌};
ghost use Rattle.crossing.specs.Packets.{parts_bytes};

use packet::Parts;
use packet::places::{ADDRESS_AT, HOPS_AT, SECOND_ADDRESS_AT, TYPE_TWO_CONTEXT_AT, TYPE_TWO_START};

// The parts in 35 bytes.
pub fn parts_bytes(parts: Parts) -> [u8; TYPE_TWO_START]
    ensures { result ≡ parts_bytes parts }
{
    let mut bytes = [0u8; TYPE_TWO_START];
    octets::set_at(&mut bytes, 0, parts.header);
    octets::set_at(&mut bytes, HOPS_AT, parts.hops);
    octets::copy_at(&mut bytes, ADDRESS_AT, &parts.relay);
    octets::copy_at(&mut bytes, SECOND_ADDRESS_AT, &parts.destination);
    octets::set_at(&mut bytes, TYPE_TWO_CONTEXT_AT, parts.context);
    bytes
}
