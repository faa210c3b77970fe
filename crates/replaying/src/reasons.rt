// A reason's words, by its numbers.
ghost use Rattle.std.specs.Prelude.{◌≡◌, [], ◌∷◌};
ghost use Rattle.rules.specs.Answers.{tells_value};
ghost use Rattle.text.specs.Words.{spaced};
ghost use Rattle.text.specs.Text.{appended};
ghost use Rattle.replaying.specs.Lines.{numbers_of, test_word, reason_words};

use text::{Text, with_character, with_decimal, with_number};

// Kept: the C interface gives a reason by its numbers, and so does crossing. These are test 3, and case 3 of test 6.
const BAD_FORM: u8 = 3;

const NO_WAY_ON: u8 = 6;

const ONLY_EXPIRED: u8 = 3;

// Whether a value is told.
#[tactic(auto, using(outgoing::proofs::Steps::joined), unfolding(rules::specs::Answers::tells_value))]
fn tells_value(test: u8, clause: u8) -> bool
    ensures { result ≡ tells_value (numbers_of test clause 0) }
{
    test == BAD_FORM || test == NO_WAY_ON && clause == ONLY_EXPIRED
}

// The line with a test and its clause or case, where it has one.
#[tactic(auto, using(outgoing::proofs::Steps::joined), unfolding(crate::specs::Lines::test_word))]
fn with_test(line: Text, test: u8, clause: u8) -> Text
    ensures { result ≡ appended line (spaced (test_word test clause ∷ [])) }
{
    let tested = with_number(line, u64::from(test));
    if clause == 0 {
        return tested;
    }
    with_decimal(with_character(tested, b'.'), u64::from(clause))
}

// The line with a reason's words.
pub fn with_reason(line: Text, test: u8, clause: u8, value: u64) -> Text
    ensures { result ≡ appended line (spaced (reason_words (numbers_of test clause value))) }
{
    let tested = with_test(line, test, clause);
    if tells_value(test, clause) {
        return with_number(tested, value);
    }
    tested
}
