// Texts of at most 160 bytes, as they grow by characters, words and numbers.
// Entry points: all. What there is no room for is left out, so nothing is required; who promises `text_of` of some words
// shows once, of the whole, that they fit.
#![tactic(auto)]

mod numerals;

ghost use Rattle.std.specs.Prelude.{◌≡◌, [], ◌∷◌};
ghost use Rattle.text.specs.Numerals.{decimal, hexadecimal};
ghost use Rattle.text.specs.Words.{spaced, words_line, refused_words};
ghost use Rattle.text.specs.Text.{text_of, appended};

pub use numerals::{with_decimal, with_hexadecimal};

// `text_size` of specs/ in code.
pub const SIZE: usize = 160;

// The first `length` bytes are the text, the rest zeros.
// Kept: no heap is a rule of the project, so a text of fixed size and its length stand in a String's place.
#[derive(Clone, Copy)]
pub struct Text {
    pub bytes: [u8; SIZE],
    pub length: usize,
}

// A text without characters.
pub fn empty() -> Text
    ensures { result ≡ text_of [] }
{
    Text {
        bytes: [0; SIZE],
        length: 0,
    }
}

// The text with more at its end.
pub fn with_text(text: Text, more: &[u8]) -> Text
    ensures { result ≡ appended text more.now }
{
    if SIZE <= text.length {
        return text;
    }
    let fitting = &more[..more.len().min(SIZE - text.length)];
    let mut bytes = text.bytes;
    octets::copy_at(&mut bytes, text.length, fitting);
    Text {
        bytes,
        length: text.length + fitting.len(),
    }
}

// The text with one character at its end.
pub fn with_character(text: Text, character: u8) -> Text
    ensures { result ≡ appended text (character ∷ []) }
{
    with_text(text, &[character])
}

// The text with a space and a word at its end.
pub fn with_word(text: Text, word: &[u8]) -> Text
    ensures { result ≡ appended text (spaced (word.now ∷ [])) }
{
    with_text(with_character(text, b' '), word)
}

// The text with a space and a number at its end.
pub fn with_number(text: Text, x: u64) -> Text
    ensures { result ≡ appended text (spaced (decimal x ∷ [])) }
{
    with_decimal(with_character(text, b' '), x)
}

// The text with a space and bytes at its end, in hexadecimal.
pub fn with_bytes(text: Text, bytes: &[u8]) -> Text
    ensures { result ≡ appended text (spaced (hexadecimal bytes.now ∷ [])) }
{
    with_hexadecimal(with_character(text, b' '), bytes)
}

// The line of a refusal.
pub fn refused_line(refusal: u8) -> Text
    ensures { result ≡ text_of (words_line (refused_words refusal)) }
{
    let start = with_text(empty(), b"refused");
    with_character(with_number(start, u64::from(refusal)), b'\n')
}
