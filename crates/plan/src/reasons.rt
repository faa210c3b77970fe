// The numbers of a reason: document 01's test, document 02's clause or case, and the value that goes with it.
// Kept: the C interface tells a reason by these numbers.
ghost use Rattle.std.specs.Prelude.{◌≡◌};
ghost use Rattle.rules.specs.Answers.{clause_number, least_length, case_number, greatest_expiry};
ghost use Rattle.rules.specs.Answers.{reason_number, reason_numbers};

use numbers::{LEAST_LINK_REQUEST, SHORTER_LINK_PROOF};
use rules::{Blocked, Clause, Reason};

// What test 3 asks of a link request and of a link proof, as the value that goes with the reason.
const LEAST_REQUEST: u64 = LEAST_LINK_REQUEST as u64;

const LEAST_PROOF: u64 = SHORTER_LINK_PROOF as u64;

fn clause_number(clause: Clause) -> u8
    ensures { result ≡ clause_number clause }
{
    match clause {
        Clause::TypeTwoProof => 1,
        Clause::TypeTwoOfKindLink => 2,
        Clause::AnnounceNotSingle => 3,
        Clause::AnnounceTooShort(_) => 4,
        Clause::AnnounceOfAnother => 5,
        Clause::RequestOfKindLink => 6,
        Clause::RequestTooShort => 7,
        Clause::LinkProofLength => 8,
    }
}

// The least payload length that would have served, or 0 where length isn't the fault.
fn least_length(clause: Clause) -> u64
    ensures { result ≡ least_length clause }
{
    match clause {
        Clause::AnnounceTooShort(least) => least as u64,
        Clause::RequestTooShort => LEAST_REQUEST,
        Clause::LinkProofLength => LEAST_PROOF,
        _ => 0,
    }
}

fn case_number(why: Blocked) -> u8
    ensures { result ≡ case_number why }
{
    match why {
        Blocked::NotAsking => 1,
        Blocked::NoPath => 2,
        Blocked::OnlyExpired(_) => 3,
        Blocked::NoLink => 4,
        Blocked::NotProved => 5,
        Blocked::NoReturn => 6,
    }
}

fn greatest_expiry(why: Blocked) -> u64
    ensures { result ≡ greatest_expiry why }
{
    match why {
        Blocked::OnlyExpired(expiry) => expiry,
        _ => 0,
    }
}

// The number of the test that dropped a packet, whichever its clause or case.
pub fn reason_number(reason: Reason) -> u8
    ensures { result ≡ reason_number reason }
{
    match reason {
        Reason::NotOurs => 1,
        Reason::Duplicate => 2,
        Reason::BadForm(_) => 3,
        Reason::OwnAnnounce => 4,
        Reason::TooManyHops => 5,
        Reason::NoWayOn(_) => 6,
        Reason::AlreadyKnown => 7,
        Reason::WrongSide => 8,
        Reason::NotSigned => 9,
        Reason::Replay => 10,
        Reason::NotBetter => 11,
        Reason::RateLimited => 15,
        Reason::PortOff => 12,
        Reason::TooLongForPort => 16,
        Reason::NoRoom => 13,
    }
}

// The clause of test 3 or the case of test 6, or 0.
pub fn reason_clause(reason: Reason) -> u8
    ensures { result ≡ (reason_numbers reason).clause }
{
    match reason {
        Reason::BadForm(clause) => clause_number(clause),
        Reason::NoWayOn(why) => case_number(why),
        _ => 0,
    }
}

// The value that goes with it, or 0.
pub fn reason_value(reason: Reason) -> u64
    ensures { result ≡ (reason_numbers reason).value }
{
    match reason {
        Reason::BadForm(clause) => least_length(clause),
        Reason::NoWayOn(why) => greatest_expiry(why),
        _ => 0,
    }
}
