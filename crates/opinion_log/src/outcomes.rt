// What each packet of the list did when it came, from the oldest on.
ghost use Rattle.std.specs.Prelude.{◌≡◌, ◌<◌, ◌≤◌};
ghost use Rattle.history.specs.After.{came};
ghost use Rattle.history.specs.Opinion.{list_limit};
ghost use Rattle.judging.specs.Seen.{arrival_of};
ghost use Rattle.opinion_log.specs.Log.{entry_of, entry_bytes, known_in};
ghost use Rattle.opinion_log.specs.Steps.{effect_of, keeps_hash, CanAsk, CanJudge, KeptOf, planned_effect};

use super::log::{Entry, entry_at};
use super::places::{LIST_LIMIT, LOG_SIZE};
use super::seeing::seen;
use judging::{Arrived, Planned, SeenWay, plan_of, remembers};
use rules::Reason;

// What a packet changed besides the clock and the remembered hashes.
#[derive(Clone, Copy, PartialEq, Eq)]
pub enum Effect {
    Nothing,
    AnnouncesPath,
    LimitsPath,
    LeavesReturn,
    LeavesLink,
    RenewsLink,
    EmptiesReturn,
}

// What an entry did, and whether its hash is remembered from it on.
#[derive(Clone, Copy)]
pub struct Outcome {
    pub effect: Effect,
    pub kept: bool,
}

// Of an entry that is no packet.
const IDLE: Outcome = Outcome {
    effect: Effect::Nothing,
    kept: false,
};

// By a path, data leaves a return record and a link request a link.
fn effect_of(planned: Planned, is_data: bool) -> Effect
    ensures { result ≡ planned_effect planned is_data }
{
    match planned {
        Planned::Drop(Reason::RateLimited) => Effect::LimitsPath,
        Planned::Follow(SeenWay::Everywhere) => Effect::AnnouncesPath,
        Planned::Follow(SeenWay::ByPath(_)) if is_data => Effect::LeavesReturn,
        Planned::Follow(SeenWay::ByPath(_)) => Effect::LeavesLink,
        Planned::Follow(SeenWay::AlongLink(_)) => Effect::RenewsLink,
        Planned::Follow(SeenWay::ByReturn(_)) => Effect::EmptiesReturn,
        _ => Effect::Nothing,
    }
}

// What a packet that came after n entries did. Not in line: else the walk would clear, at each entry, the room for what
// is seen and planned.
#[inline(never)]
fn packet_outcome(
    log: &[u8; LOG_SIZE],
    outcomes: &[Outcome; LIST_LIMIT],
    n: usize,
    packet: &[u8],
    arrived: Arrived,
) -> Outcome
    requires { CanJudge log.now outcomes.now n packet.now }
    ensures { (result.effect ≡ effect_of (came (arrival_of packet.now arrived)) (known_in log.now n))
        × (result.kept ≡ keeps_hash (came (arrival_of packet.now arrived)) (known_in log.now n)) }
{
    let view = seen(log, outcomes, n, packet, arrived);
    let planned = plan_of(&view, packet, arrived);
    Outcome {
        effect: effect_of(planned, packet::is_data(packet[0])),
        kept: remembers(&view, packet, arrived, &planned),
    }
}

// What entry i did, by those before it.
fn outcome_at(log: &[u8; LOG_SIZE], outcomes: &[Outcome; LIST_LIMIT], i: usize) -> Outcome
    requires { CanAsk log.now outcomes.now i × KeptOf log.now outcomes.now i × (i < list_limit) }
    ensures { (result.effect ≡ effect_of (entry_of (entry_bytes log.now i)) (known_in log.now i))
        × (result.kept ≡ keeps_hash (entry_of (entry_bytes log.now i)) (known_in log.now i)) }
{
    match entry_at(log, i) {
        Entry::Came(packet, arrived) => packet_outcome(log, outcomes, i, packet, arrived),
        _ => IDLE,
    }
}

// What the first n entries did.
pub fn outcomes_of(log: &[u8; LOG_SIZE], n: usize) -> [Outcome; LIST_LIMIT]
    requires { n ≤ list_limit }
    ensures { CanAsk log.now result n × KeptOf log.now result n }
{
    let mut outcomes = [IDLE; LIST_LIMIT];
    for i in 0..n {
        outcomes[i] = outcome_at(log, &outcomes, i);
    }
    outcomes
}
