// The types that the rules of document 01 and the code share. The rules themselves are definitions, in specs/: no
// function stands here.
#![tactic(auto)]

// Which clause of test 3 a packet's form breaks, in document 01's order: 3.1 to 3.8 in document 02.
#[derive(Clone, Copy)]
pub enum Clause {
    TypeTwoProof,
    TypeTwoOfKindLink,
    AnnounceNotSingle,
    // With the least payload length: 148, or 180 with the context flag.
    AnnounceTooShort(usize),
    AnnounceOfAnother,
    RequestOfKindLink,
    RequestTooShort,
    LinkProofLength,
}

// Why there is no way on: the cases of test 6, in document 01's order, 6.1 to 6.6 in document 02.
#[derive(Clone, Copy)]
pub enum Blocked {
    // A type 1 data packet or link request not of kind link.
    NotAsking,
    // A type 2 one without a live path: no path record,
    NoPath,
    // .. or only expired ones, with the greatest expiry.
    OnlyExpired(u64),
    // For kind link, no live link,
    NoLink,
    // .. or an unproved one, except for a link proof.
    NotProved,
    // For an ordinary proof (any other kind), no live return record whose key is the destination.
    NoReturn,
}

// Why a packet was dropped: the tests in their order, document 02's 15 after 11 and 16 after 12. `reason_numbers` of
// specs/Answers.antt gives the numbers.
#[derive(Clone, Copy)]
pub enum Reason {
    NotOurs,
    Duplicate,
    BadForm(Clause),
    OwnAnnounce,
    TooManyHops,
    NoWayOn(Blocked),
    AlreadyKnown,
    WrongSide,
    NotSigned,
    Replay,
    NotBetter,
    RateLimited,
    PortOff,
    TooLongForPort,
    NoRoom,
}

// What was decided of an accepted packet. A length is that of the packet that stands at the output's start.
#[derive(Clone, Copy)]
pub enum Verdict {
    Drop(Reason),
    Deliver,
    Forward { port: u8, length: usize },
    Spread { ports: u16, length: usize },
    Kept,
}

// What a packet call returns: a refusal's number, or the verdict.
#[derive(Clone, Copy)]
pub enum Answer {
    Refused(u8),
    Judged(Verdict),
}

// The hops that a link request had taken when it came here: compared only with packets from the asking side.
#[derive(Clone, Copy)]
pub struct TakenHops(pub u8);

// The hops that remain to the destination, by the path: compared only with packets from the answering side.
#[derive(Clone, Copy)]
pub struct RemainingHops(pub u8);

// A link: its id, the port of the side that asked for it and of the side that answers, both hop counts, whether it is
// proved, and when it ends.
#[derive(Clone, Copy)]
pub struct Link {
    pub id: [u8; 16],
    pub asking: u8,
    pub answering: u8,
    pub taken: TakenHops,
    pub remaining: RemainingHops,
    pub proved: bool,
    pub expiry: u64,
}

// How often destinations may announce, set for the relay: target interval, grace and penalty.
#[derive(Clone, Copy)]
pub struct RateSettings {
    pub target: u64,
    pub grace: u64,
    pub penalty: u64,
}

// What a path's record has of its destination's announces: when the last one was accepted, the violations, and until
// when they are dropped.
#[derive(Clone, Copy)]
pub struct RateEntry {
    pub last: u64,
    pub violations: u8,
    pub blocked_until: u64,
}

// What the rate rule says of an announce: whether it is dropped, and the two fields after it.
#[derive(Clone, Copy)]
pub struct Rated {
    pub dropped: bool,
    pub violations: u8,
    pub blocked_until: u64,
}

// Packet calls since fresh, each modulo 2^32: all accepted ones, and those of each answer. A host's tally is six
// counters in this order.
#[repr(C)]
#[derive(Clone, Copy)]
pub struct Tally {
    pub total: u32,
    pub dropped: u32,
    pub delivered: u32,
    pub forwarded: u32,
    pub spread: u32,
    pub kept: u32,
}
