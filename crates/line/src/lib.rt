// The line by which the showing program tells a packet.
// Entry point: line_of. Every other function is a helper: the caller shows what it requires.
#![tactic(auto)]

mod fields;
mod names;

ghost use Rattle.std.specs.Prelude.{◌≡◌};
ghost use Rattle.text.specs.Text.{text_of};
ghost use Rattle.line.specs.Line.{line_text};

use fields::parts_line;
use packet::LONGEST_PACKET;
use text::Text;

// The line of a packet, or of bytes that don't read at 500.
pub fn line_of(packet: &[u8]) -> Text
    ensures { result ≡ text_of (line_text packet.now) }
{
    match packet::read(packet, LONGEST_PACKET) {
        Ok(parts) => parts_line(parts, packet::payload(packet).len()),
        Err(refusal) => text::refused_line(refusal.number()),
    }
}
