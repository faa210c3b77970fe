// Numbers in digits.
ghost use Rattle.std.specs.Prelude.{◌≡◌, ◌<◌, ◌≤◌, drop};
ghost use Rattle.text.specs.Numerals.{digit as digit_of, decimal, most_digits, hexadecimal_byte, hexadecimal};
ghost use Rattle.text.specs.Text.{appended};

use super::{Text, with_text};

// `most_digits` of specs/ in code: how many digits the largest number has, in decimal.
const MOST_DIGITS: usize = 20;

const LARGEST_DIGIT: u64 = 9;

// The character of a digit: 0 to 9, a to f.
fn digit(n: u8) -> u8
    requires { n < 16 }
    ensures { result ≡ digit_of n }
{
    if n < 10 {
        return b'0' + n;
    }
    b'a' + (n - 10)
}

// Writes x in decimal at the end of the bytes, and says where it starts.
fn write_decimal(digits: &mut [u8; MOST_DIGITS], x: u64) -> usize
    ensures { (result ≤ most_digits) × (drop result digits.new ≡ decimal x) }
{
    let mut rest = x;
    for at in (1..MOST_DIGITS).rev() {
        digits[at] = digit((rest % 10) as u8);
        if rest <= LARGEST_DIGIT {
            return at;
        }
        rest /= 10;
    }
    digits[0] = digit(rest as u8);
    0
}

// The text with a number at its end, in decimal. In line: called, it took a short line up to twice as long, whose text
// is copied at each call.
#[inline(always)]
pub fn with_decimal(text: Text, x: u64) -> Text
    ensures { result ≡ appended text (decimal x) }
{
    let mut digits = [0u8; MOST_DIGITS];
    let start = write_decimal(&mut digits, x);
    with_text(text, &digits[start..])
}

// The text with a byte at its end, in hexadecimal.
fn with_byte(text: Text, byte: u8) -> Text
    ensures { result ≡ appended text (hexadecimal_byte byte) }
{
    with_text(text, &[digit(byte / 16), digit(byte % 16)])
}

// The text with bytes at its end, in hexadecimal.
pub fn with_hexadecimal(text: Text, bytes: &[u8]) -> Text
    ensures { result ≡ appended text (hexadecimal bytes.now) }
{
    let mut grown = text;
    for byte in bytes {
        grown = with_byte(grown, *byte);
    }
    grown
}
