// Test 3, bad form: its clauses in document 01's order. All of it needs the packet alone.
ghost use Rattle.std.specs.Prelude.{◌≡◌, true};
ghost use Rattle.packet.specs.Read.{longest_packet, reads};
ghost use Rattle.rules.specs.Arrival.{is_link_proof};
ghost use Rattle.rules.specs.Tests.{announce_of_another, link_proof_length};
ghost use Rattle.forms.specs.Form.{form_of};

use numbers::{LEAST_LINK_REQUEST, LONGER_LINK_PROOF, SHORTER_LINK_PROOF};
use rules::Clause;

// A proof of kind link, context 0xFF.
#[tactic(auto, using(outgoing::proofs::Steps::reading), unfolding(rules::specs::Arrival::is_link_proof))]
pub fn is_link_proof(packet: &[u8]) -> bool
    requires { reads longest_packet packet.now ≡ true }
    ensures { result ≡ is_link_proof packet.now }
{
    let header = packet[0];
    packet::is_proof(header)
        && packet::of_kind_link(header)
        && packet::parts_of(packet).context == 255
}

// Announce destination not what the keys and the name hash give. Only an announce is hashed.
#[tactic(auto, using(outgoing::proofs::Steps::reading), unfolding(rules::specs::Tests::announce_of_another))]
fn announce_of_another(packet: &[u8]) -> bool
    requires { reads longest_packet packet.now ≡ true }
    ensures { result ≡ announce_of_another packet.now }
{
    packet::is_announce(packet[0])
        && packet::parts_of(packet).destination
            != packet::announced_destination(packet::payload(packet))
}

// A link proof whose payload isn't 96 or 99.
#[tactic(auto, using(outgoing::proofs::Steps::reading), unfolding(rules::specs::Tests::link_proof_length))]
fn link_proof_length(packet: &[u8]) -> bool
    requires { reads longest_packet packet.now ≡ true }
    ensures { result ≡ link_proof_length packet.now }
{
    let length = packet::payload(packet).len();
    is_link_proof(packet) && length != SHORTER_LINK_PROOF && length != LONGER_LINK_PROOF
}

// The first clause that fails. None: a good form.
#[tactic(auto, using(crate::proofs::FormLaws::form_steps))]
pub fn form_of(packet: &[u8]) -> Option<Clause>
    requires { reads longest_packet packet.now ≡ true }
    ensures { result ≡ form_of packet.now }
{
    let header = packet[0];
    let length = packet::payload(packet).len();
    if packet::type_two(header) && packet::is_proof(header) {
        return Some(Clause::TypeTwoProof);
    }
    if packet::type_two(header) && packet::of_kind_link(header) {
        return Some(Clause::TypeTwoOfKindLink);
    }
    if packet::is_announce(header) && !packet::of_kind_single(header) {
        return Some(Clause::AnnounceNotSingle);
    }
    if packet::is_announce(header) && length < packet::least_announce(header) {
        return Some(Clause::AnnounceTooShort(packet::least_announce(header)));
    }
    if announce_of_another(packet) {
        return Some(Clause::AnnounceOfAnother);
    }
    if packet::is_link_request(header) && packet::of_kind_link(header) {
        return Some(Clause::RequestOfKindLink);
    }
    if packet::is_link_request(header) && length < LEAST_LINK_REQUEST {
        return Some(Clause::RequestTooShort);
    }
    if link_proof_length(packet) {
        return Some(Clause::LinkProofLength);
    }
    None
}
