// Tests 1, 2 and 4, and what is delivered here.
ghost use Rattle.std.specs.Prelude.{◌≡◌, true};
ghost use Rattle.packet.specs.Read.{longest_packet, reads};
ghost use Rattle.rules.specs.Tests.{not_ours, for_marked_path, duplicate as is_duplicate, own_announce, delivered_here};
ghost use Rattle.judging.specs.Seen.{as_seen};

use super::{Arrived, Seen};

// Test 1: type 2, not an announce, relay address not our own.
pub fn not_ours(seen: &Seen, packet: &[u8], arrived: Arrived) -> bool
    requires { reads longest_packet packet.now ≡ true }
    ensures { result ≡ as_seen not_ours seen.now packet.now arrived }
{
    packet::type_two(packet[0])
        && !packet::is_announce(packet[0])
        && packet::parts_of(packet).relay != seen.own
}

// An announce of kind single whose destination has a live path, and that is marked.
pub fn for_marked_path(seen: &Seen, packet: &[u8], arrived: Arrived) -> bool
    requires { reads longest_packet packet.now ≡ true }
    ensures { result ≡ as_seen for_marked_path seen.now packet.now arrived }
{
    packet::is_announce(packet[0])
        && packet::of_kind_single(packet[0])
        && seen.path.is_some_and(|path| path.notes.marked)
}

// Test 2: not exempt, not an announce for a marked path, and the hash is remembered.
pub fn duplicate(seen: &Seen, packet: &[u8], arrived: Arrived) -> bool
    requires { reads longest_packet packet.now ≡ true }
    ensures { result ≡ as_seen is_duplicate seen.now packet.now arrived }
{
    !forms::exempt(packet) && !for_marked_path(seen, packet, arrived) && seen.remembered
}

// Test 4: an announce whose destination is local.
pub fn own_announce(seen: &Seen, packet: &[u8], arrived: Arrived) -> bool
    requires { reads longest_packet packet.now ≡ true }
    ensures { result ≡ as_seen own_announce seen.now packet.now arrived }
{
    packet::is_announce(packet[0]) && seen.local
}

// Data and link requests to a local address, kind link excepted.
pub fn delivered_here(seen: &Seen, packet: &[u8], arrived: Arrived) -> bool
    requires { reads longest_packet packet.now ≡ true }
    ensures { result ≡ as_seen delivered_here seen.now packet.now arrived }
{
    let header = packet[0];
    (packet::is_data(header) || packet::is_link_request(header))
        && !packet::of_kind_link(header)
        && seen.local
}
