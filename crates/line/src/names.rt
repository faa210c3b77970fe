// The header's bits by their names.
ghost use Rattle.std.specs.Prelude.{◌≡◌, [], ◌∷◌};
ghost use Rattle.text.specs.Words.{spaced};
ghost use Rattle.text.specs.Text.{text_of, appended};
ghost use Rattle.line.specs.Line.{type_name, transport_name, kind_word, name_words};

use text::{Text, with_text, with_word};

// The line that starts with the packet's type.
pub fn type_line(header: u8) -> Text
    ensures { result ≡ appended (text_of []) (type_name header) }
{
    let start = text::empty();
    if packet::type_two(header) {
        return with_text(start, b"type2");
    }
    with_text(start, b"type1")
}

// The line with transport or broadcast.
fn with_transport(line: Text, header: u8) -> Text
    ensures { result ≡ appended line (spaced (transport_name header ∷ [])) }
{
    if packet::transport(header) {
        return with_word(line, b"transport");
    }
    with_word(line, b"broadcast")
}

// The line with the word of a kind, 0, 1, 2 or 3.
fn with_kind(line: Text, kind: u8, zero: &[u8], one: &[u8], two: &[u8], three: &[u8]) -> Text
    ensures { result ≡ appended line
        (spaced (kind_word kind zero.now one.now two.now three.now ∷ [])) }
{
    let word = match kind {
        0 => zero,
        1 => one,
        2 => two,
        _ => three,
    };
    with_word(line, word)
}

// The line with the header's other names.
pub fn with_names(line: Text, header: u8) -> Text
    ensures { result ≡ appended line (spaced (name_words header)) }
{
    let destination = packet::destination_kind(header);
    let kind = packet::packet_kind(header);
    let sent = with_transport(line, header);
    let to = with_kind(sent, destination, b"single", b"group", b"plain", b"link");
    with_kind(to, kind, b"data", b"announce", b"linkrequest", b"proof")
}
