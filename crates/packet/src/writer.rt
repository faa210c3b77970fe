// Writing a packet.
ghost use Rattle.std.specs.Prelude.{◌≡◌, ◌∷◌, ◌++◌, ◌+◌, ◌≤◌, length};
ghost use Rattle.octets.specs.Part.{patch};
ghost use Rattle.numbers.specs.Refusals.{refused_number, written_as};
ghost use Rattle.packet.specs.Places.{end_width};
ghost use Rattle.packet.specs.Read.{payload_start};
ghost use Rattle.packet.specs.Write.{packet_of, writing_refusal, writing};

use super::Parts;
use super::header::{access_code, type_two};
use super::places::{ADDRESS_AT, END_WIDTH, HOPS_AT, SECOND_ADDRESS_AT};
use super::reader::payload_start;
use numbers::{ADDRESS_WIDTH, LEAST_OUTPUT, LONGEST_PACKET, Refusal};

// Whether a writing fits into room bytes, or why it is refused.
fn check_writing(parts: Parts, payload: &[u8], room: usize) -> Result<(), Refusal>
    ensures { refused_number result ≡ writing_refusal room parts payload.now }
{
    if room < LEAST_OUTPUT {
        return Err(Refusal::Output);
    }
    let start = payload_start(parts.header);
    if LONGEST_PACKET - start < payload.len() {
        return Err(Refusal::TooLong);
    }
    if access_code(parts.header) {
        return Err(Refusal::AccessCode);
    }
    Ok(())
}

// Writes what both types end with from place at on.
fn write_end(destination: [u8; 16], context: u8, payload: &[u8], output: &mut [u8], at: usize)
    requires { at + end_width + length payload.now ≤ length output.old }
    ensures { output.new
        ≡ patch output.old at (destination ++ (context ∷ payload.now)) }
{
    octets::copy_at(output, at, &destination);
    octets::set_at(output, at + ADDRESS_WIDTH, context);
    octets::copy_at(output, at + END_WIDTH, payload);
}

// Writes the packet at the start of the output, which has room for it.
pub fn write_packet(parts: Parts, payload: &[u8], output: &mut [u8])
    requires { payload_start parts.header + length payload.now ≤ length output.old }
    ensures { output.new ≡ patch output.old 0 (packet_of parts payload.now) }
{
    octets::set_at(output, 0, parts.header);
    octets::set_at(output, HOPS_AT, parts.hops);
    if type_two(parts.header) {
        octets::copy_at(output, ADDRESS_AT, &parts.relay);
        write_end(
            parts.destination,
            parts.context,
            payload,
            output,
            SECOND_ADDRESS_AT,
        );
        return;
    }
    write_end(
        parts.destination,
        parts.context,
        payload,
        output,
        ADDRESS_AT,
    );
}

// Writes the packet of these parts and this payload at the start of the output, and says how long it is.
pub fn write(parts: Parts, payload: &[u8], output: &mut [u8]) -> Result<usize, Refusal>
    ensures { (written_as result ≡ (writing parts payload.now output.old).answer)
        × (output.new ≡ (writing parts payload.now output.old).output) }
{
    check_writing(parts, payload, output.len())?;
    write_packet(parts, payload, output);
    Ok(payload_start(parts.header) + payload.len())
}
