// The keys that a packet's records stand under.
ghost use Rattle.std.specs.Prelude.{◌≡◌, true, take};
ghost use Rattle.packet.specs.Places.{address_width};
ghost use Rattle.packet.specs.Read.{longest_packet, reads};
ghost use Rattle.packet.specs.Hash.{packet_hash};
ghost use Rattle.judging.specs.Seen.{link_key_of};

// Of the link that judging looks for: a link request's own id, and the destination of any other packet.
pub fn link_key(packet: &[u8]) -> [u8; 16]
    requires { reads longest_packet packet.now ≡ true }
    ensures { result ≡ link_key_of packet.now }
{
    if packet::is_link_request(packet[0]) {
        return packet::link_id_of(packet);
    }
    packet::parts_of(packet).destination
}

// Of the return record that forwarded data leaves: the first 16 of its hash.
pub fn return_key(packet: &[u8]) -> [u8; 16]
    requires { reads longest_packet packet.now ≡ true }
    ensures { result ≡ take address_width (packet_hash packet.now) }
{
    octets::address_at(&packet::hash_of(packet), 0)
}
