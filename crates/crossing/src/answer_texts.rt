// An answer's text, from its number.
ghost use Rattle.std.specs.Prelude.{◌≡◌};
ghost use Rattle.crossing.specs.Texts.{number_text};

use super::bits::{
    CLAUSE_PLACE, CLAUSE_SPAN, DETAIL_PLACE, DETAIL_SPAN, KIND_SPAN, PORTS_PLACE, PORTS_SPAN,
    VALUE_PLACE, VALUE_SPAN,
};
use replaying::{with_ports, with_reason};
use text::{Text, with_number, with_text};

// The text that a number's bits give.
pub fn number_text(answer: u64) -> Text
    ensures { result ≡ number_text answer }
{
    let kind = answer % KIND_SPAN;
    let detail = (answer / DETAIL_PLACE % DETAIL_SPAN) as u8;
    let clause = (answer / CLAUSE_PLACE % CLAUSE_SPAN) as u8;
    let value = answer / VALUE_PLACE % VALUE_SPAN;
    let ports = (answer / PORTS_PLACE % PORTS_SPAN) as u16;
    match kind {
        0 => with_number(with_text(text::empty(), b"refused"), u64::from(detail)),
        1 => with_reason(with_text(text::empty(), b"drop"), detail, clause, value),
        2 => with_text(text::empty(), b"deliver"),
        3 => with_number(with_text(text::empty(), b"forward"), u64::from(ports)),
        4 => with_ports(with_text(text::empty(), b"spread"), ports),
        5 => with_text(text::empty(), b"kept"),
        _ => text::empty(),
    }
}
