// An answer's text, from its number.
ghost use Rattle.std.specs.Prelude.{◌≡◌};
ghost use Rattle.crossing.specs.Texts.{number_text};

// The text of an answer that a call returned as its number, as a replay's line has it: `drop 6.3 22600`, `forward 4`.
// Its length, and the text at the start of the buffer with zeros behind it; no text for a number whose low byte is
// over 5, which no call returns.
#[unsafe(no_mangle)]
pub extern "C" fn haskumye_answer_text(answer: u64, text: &mut [u8; 160]) -> usize
    ensures { (result ≡ (number_text answer).length) × (text.new ≡ (number_text answer).bytes) }
{
    let whole = crossing::number_text(answer);
    let bytes = whole.bytes;
    *text = bytes;
    whole.length
}
