// Packets that are neither tested as duplicates nor remembered.
ghost use Rattle.std.specs.Prelude.{◌≡◌, true};
ghost use Rattle.packet.specs.Read.{longest_packet, reads};
ghost use Rattle.rules.specs.Exempt.{exempt_context, exempt as is_exempt};

// RESOURCE, RESOURCE_REQ, RESOURCE_PRF, CACHE_REQUEST, CHANNEL and KEEPALIVE.
fn exempt_context(context: u8) -> bool
    ensures { result ≡ exempt_context context }
{
    matches!(context, 0x01 | 0x03 | 0x05 | 0x08 | 0x0e | 0xfa)
}

// A packet of kind link with one of these contexts.
#[tactic(auto, using(outgoing::proofs::Steps::reading), unfolding(rules::specs::Exempt::exempt))]
pub fn exempt(packet: &[u8]) -> bool
    requires { reads longest_packet packet.now ≡ true }
    ensures { result ≡ is_exempt packet.now }
{
    packet::of_kind_link(packet[0]) && exempt_context(packet::parts_of(packet).context)
}
