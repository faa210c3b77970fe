// The line of an answer.
ghost use Rattle.std.specs.Prelude.{◌≡◌, ◌≤◌, length};
ghost use Rattle.numbers.specs.Numbers.{port_count};
ghost use Rattle.text.specs.Words.{spaced};
ghost use Rattle.text.specs.Text.{text_of, appended};
ghost use Rattle.replaying.specs.Lines.{longest_answer, ports_below, verdict_words, answer_words, answer_line};

use super::reasons::with_reason;
use numbers::PORT_COUNT;
use rules::{Answer, Verdict};
use text::{Text, with_character, with_number, with_word};

// The line with the ports of a set, rising.
pub fn with_ports(line: Text, ports: u16) -> Text
    ensures { result ≡ appended line (spaced (ports_below ports port_count)) }
{
    let mut grown = line;
    for port in 0..PORT_COUNT {
        if (ports >> port) % 2 == 1 {
            grown = with_number(grown, port as u64);
        }
    }
    grown
}

// The line with a verdict's words, which are no longer than the longest answer: a text has room for them.
fn with_verdict(line: Text, verdict: Verdict) -> Text
    ensures { (result ≡ appended line (spaced (verdict_words verdict)))
        × (length (spaced (verdict_words verdict)) ≤ longest_answer) }
{
    match verdict {
        Verdict::Drop(reason) => {
            with_reason(
                with_word(line, b"drop"),
                relay::reason_number(reason),
                relay::reason_clause(reason),
                relay::reason_value(reason),
            )
        }
        Verdict::Deliver => with_word(line, b"deliver"),
        Verdict::Forward { port, .. } => with_number(with_word(line, b"forward"), u64::from(port)),
        Verdict::Spread { ports, .. } => with_ports(with_word(line, b"spread"), ports),
        Verdict::Kept => with_word(line, b"kept"),
    }
}

// The line with an answer's words.
fn with_answer(line: Text, answer: Answer) -> Text
    ensures { (result ≡ appended line (spaced (answer_words answer)))
        × (length (spaced (answer_words answer)) ≤ longest_answer) }
{
    match answer {
        Answer::Refused(number) => with_number(with_word(line, b"refused"), u64::from(number)),
        Answer::Judged(verdict) => with_verdict(line, verdict),
    }
}

// The line of the entry that is counted so.
pub fn line_of(number: u64, answer: Answer) -> Text
    ensures { result ≡ text_of (answer_line number answer) }
{
    let counted = text::with_decimal(text::empty(), number);
    with_character(with_answer(counted, answer), b'\n')
}
