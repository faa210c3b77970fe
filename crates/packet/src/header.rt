// The bits of the header byte.
ghost use Rattle.std.specs.Prelude.{◌≡◌, ◌/◌, ◌%◌, ◌^◌, ◌<◌, nat_eq};
ghost use Rattle.packet.specs.Header.{access_code, type_two, context_flag, transport as transport_bit, destination_kind, of_kind_single, of_kind_link, packet_kind, is_data, is_announce, is_link_request, is_proof};

// Whether bit n is set.
fn bit(header: u8, n: u32) -> bool
    requires { n < 8 }
    ensures { result ≡ nat_eq (header / 2 ^ n % 2) 1 }
{
    header >> n & 1 == 1
}

// Bit 7.
#[tactic(auto, unfolding(crate::specs::Header::access_code))]
pub fn access_code(header: u8) -> bool
    ensures { result ≡ access_code header }
{
    bit(header, 7)
}

// Bit 6.
#[tactic(auto, unfolding(crate::specs::Header::type_two))]
pub fn type_two(header: u8) -> bool
    ensures { result ≡ type_two header }
{
    bit(header, 6)
}

// Bit 5.
#[tactic(auto, unfolding(crate::specs::Header::context_flag))]
pub fn context_flag(header: u8) -> bool
    ensures { result ≡ context_flag header }
{
    bit(header, 5)
}

// Bit 4.
#[tactic(auto, unfolding(crate::specs::Header::transport))]
pub fn transport(header: u8) -> bool
    ensures { result ≡ transport_bit header }
{
    bit(header, 4)
}

// Bits 3-2: 0 single, 1 group, 2 plain, 3 link.
#[tactic(auto, unfolding(crate::specs::Header::destination_kind))]
pub fn destination_kind(header: u8) -> u8
    ensures { result ≡ destination_kind header }
{
    header / 4 % 4
}

// Bits 1-0: 0 data, 1 announce, 2 link request, 3 proof.
#[tactic(auto, unfolding(crate::specs::Header::packet_kind))]
pub fn packet_kind(header: u8) -> u8
    ensures { result ≡ packet_kind header }
{
    header % 4
}

pub fn of_kind_single(header: u8) -> bool
    ensures { result ≡ of_kind_single header }
{
    destination_kind(header) == 0
}

pub fn of_kind_link(header: u8) -> bool
    ensures { result ≡ of_kind_link header }
{
    destination_kind(header) == 3
}

pub fn is_data(header: u8) -> bool
    ensures { result ≡ is_data header }
{
    packet_kind(header) == 0
}

pub fn is_announce(header: u8) -> bool
    ensures { result ≡ is_announce header }
{
    packet_kind(header) == 1
}

pub fn is_link_request(header: u8) -> bool
    ensures { result ≡ is_link_request header }
{
    packet_kind(header) == 2
}

pub fn is_proof(header: u8) -> bool
    ensures { result ≡ is_proof header }
{
    packet_kind(header) == 3
}
