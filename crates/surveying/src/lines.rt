// The lines of a survey's text.
ghost use Rattle.std.specs.Prelude.{◌≡◌, ◌<◌, [], ◌∷◌};
ghost use Rattle.numbers.specs.Numbers.{port_count};
ghost use Rattle.text.specs.Numerals.{decimal};
ghost use Rattle.text.specs.Words.{spaced};
ghost use Rattle.text.specs.Text.{text_of, appended};
ghost use Rattle.surveying.specs.Counts.{test_count};
ghost use Rattle.surveying.specs.Lines.{survey_line, settings_line, recording_line, fraction_word, port_line, reason_line};
ghost use Rattle.surveying.specs.Promise.{refusal_count, recording_at, port_at, test_at, line_at};

use super::counting::{
    BYTES_IN_AT, BYTES_OUT_AT, COUNTER_COUNT, DROPPED_AT, TEST_COUNT, TEST_ORDER, TESTS_AT,
};
use super::fractions::share;
use super::{Fraction, REFUSAL_COUNT};
use numbers::PORT_COUNT;
use text::{Text, with_character, with_decimal, with_number, with_text, with_word};

// The lines by their places: `survey`, the seventeen recordings, of which one that wasn't refused has no line, the
// ports, the tests.
const PORTS_FROM: usize = REFUSAL_COUNT;

const TESTS_FROM: usize = PORTS_FROM + PORT_COUNT;

pub const LINE_COUNT: usize = TESTS_FROM + TEST_COUNT;

fn heading() -> Text
    ensures { result ≡ text_of survey_line }
{
    with_character(with_text(text::empty(), b"survey"), b'\n')
}

// The line of a settings file that is refused.
pub fn settings_refused(refusal: u8) -> Text
    ensures { result ≡ text_of (settings_line refusal) }
{
    let start = with_word(with_text(text::empty(), b"settings"), b"refused");
    with_character(with_number(start, u64::from(refusal)), b'\n')
}

// The line of a recording that is refused.
fn recording_refused(number: u64, refusal: u8) -> Text
    ensures { result ≡ text_of (recording_line number refusal) }
{
    let counted = with_number(with_text(text::empty(), b"recording"), number);
    let refused = with_number(with_word(counted, b"refused"), u64::from(refusal));
    with_character(refused, b'\n')
}

fn recording_at(refusals: &[u8; REFUSAL_COUNT], number: usize) -> Text
    requires { number < refusal_count }
    ensures { result ≡ text_of (recording_at refusals.now number) }
{
    let refusal = refusals[number];
    if refusal == 0 {
        return text::empty();
    }
    recording_refused(number as u64, refusal)
}

fn with_fraction(line: Text, fraction: Fraction) -> Text
    ensures { result ≡ appended line (spaced (fraction_word fraction ∷ [])) }
{
    let above = with_number(line, fraction.above);
    with_decimal(with_character(above, b'/'), fraction.below)
}

// The line with a word and a number.
fn with_named(line: Text, name: &[u8], x: u64) -> Text
    ensures { result ≡ appended line (spaced (name.now ∷ decimal x ∷ [])) }
{
    with_number(with_word(line, name), x)
}

// The line of a port: packets that came, bytes in and out, and packets dropped.
fn port_line(port: u64, packets: u64, received: u64, sent: u64, dropped: u64) -> Text
    ensures { result ≡ text_of (port_line port packets received sent dropped) }
{
    let named = with_number(with_text(text::empty(), b"port"), port);
    let came = with_named(with_named(named, b"packets", packets), b"in", received);
    let left = with_word(with_named(came, b"out", sent), b"dropped");
    with_character(with_fraction(left, share(dropped, packets)), b'\n')
}

#[tactic(auto, unfolding(crate::specs::Promise::port_at))]
fn port_at(counts: &[u64; COUNTER_COUNT], port: usize) -> Text
    requires { port < port_count }
    ensures { result ≡ text_of (port_at counts.now port) }
{
    port_line(
        port as u64,
        counts[port],
        counts[BYTES_IN_AT + port],
        counts[BYTES_OUT_AT + port],
        counts[DROPPED_AT + port],
    )
}

// The line of a test: packets dropped by it.
fn reason_line(test: u64, drops: u64) -> Text
    ensures { result ≡ text_of (reason_line test drops) }
{
    let named = with_number(with_text(text::empty(), b"reason"), test);
    with_character(with_number(named, drops), b'\n')
}

#[tactic(auto, unfolding(crate::specs::Promise::test_at))]
fn test_at(counts: &[u64; COUNTER_COUNT], place: usize) -> Text
    requires { place < test_count }
    ensures { result ≡ text_of (test_at counts.now place) }
{
    reason_line(u64::from(TEST_ORDER[place]), counts[TESTS_AT + place])
}

// The line at a place: without characters where a recording wasn't refused, and past the last.
pub fn line(counts: &[u64; COUNTER_COUNT], refusals: &[u8; REFUSAL_COUNT], i: usize) -> Text
    ensures { result ≡ text_of (line_at counts.now refusals.now i) }
{
    if i == 0 {
        return heading();
    }
    if i < PORTS_FROM {
        return recording_at(refusals, i);
    }
    if i < TESTS_FROM {
        return port_at(counts, i - PORTS_FROM);
    }
    if i < LINE_COUNT {
        return test_at(counts, i - TESTS_FROM);
    }
    text::empty()
}
