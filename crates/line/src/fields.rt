// The fields of a packet behind their words, and the line of all of them.
ghost use Rattle.std.specs.Prelude.{◌≡◌, ◌<◌};
ghost use Rattle.text.specs.Numerals.{short_limit};
ghost use Rattle.text.specs.Words.{spaced, words_line};
ghost use Rattle.text.specs.Text.{text_of, appended};
ghost use Rattle.line.specs.Line.{way_words, payload_words, relay_words, parts_words};

use super::names::{type_line, with_names};
use packet::Parts;
use text::{Text, with_bytes, with_character, with_number, with_word};

// The line with hops and destination.
fn with_way(line: Text, hops: u8, destination: [u8; 16]) -> Text
    ensures { result ≡ appended line (spaced (way_words hops destination)) }
{
    let sent = with_number(with_word(line, b"hops"), u64::from(hops));
    with_bytes(with_word(sent, b"to"), &destination)
}

// The line with context and payload length.
fn with_payload(line: Text, context: u8, size: usize) -> Text
    ensures { result ≡ appended line (spaced (payload_words context size)) }
{
    let marked = with_bytes(with_word(line, b"context"), &[context]);
    with_number(with_word(marked, b"payload"), size as u64)
}

// The line with the relay address where the type is 2.
fn with_relay(line: Text, header: u8, relay: [u8; 16]) -> Text
    ensures { result ≡ appended line (spaced (relay_words header relay)) }
{
    if packet::type_two(header) {
        return with_bytes(with_word(line, b"by"), &relay);
    }
    line
}

// The line of a packet that reads.
pub fn parts_line(parts: Parts, size: usize) -> Text
    requires { size < short_limit }
    ensures { result ≡ text_of (words_line (parts_words parts size)) }
{
    let header = parts.header;
    let named = with_names(type_line(header), header);
    let sent = with_way(named, parts.hops, parts.destination);
    let loaded = with_payload(sent, parts.context, size);
    let whole = with_relay(loaded, header, parts.relay);
    with_character(whole, b'\n')
}
