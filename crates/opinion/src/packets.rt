// The calls that are judged by what the packets listed did.
ghost use Rattle.std.specs.Prelude.{◌≡◌, true, ◌≤◌, length};
ghost use Rattle.packet.specs.Read.{longest_packet, reads};
ghost use Rattle.numbers.specs.Refusals.{refused_number};
ghost use Rattle.rules.specs.Judging.{plan, verdict, output_after};
ghost use Rattle.rules.specs.Tests.{is_there};
ghost use Rattle.rules.specs.Calls.{marks};
ghost use Rattle.judging.specs.Seen.{arrival_of};
ghost use Rattle.history.specs.Known.{seen_at};
ghost use Rattle.history.specs.Opinion.{list_limit};
ghost use Rattle.opinion_log.specs.Log.{known_in};
ghost use Rattle.opinion.specs.Calls.{Opines, Settles};
ghost use Rattle.opinion_log.specs.Steps.{view_by};
ghost use Rattle.opinion.specs.Steps.{arrival_by};

use super::refusing::{check_packet, clock_bad, room_in};
use super::writing::put;
use judging::{Arrived, answer_of, plan_of};
use numbers::Refusal;
use opinion_log::places::LOG_SIZE;
use opinion_log::{Entry, listed, live_path, outcomes_of, path_of, seen};
use rules::{Answer, Verdict};

// The verdict on an accepted packet when n calls are listed, with the packet that leaves at the output's start.
fn judged(
    log: &[u8; LOG_SIZE],
    n: usize,
    packet: &[u8],
    arrived: Arrived,
    output: &mut [u8],
) -> Verdict
    requires { (n ≤ list_limit) × (reads longest_packet packet.now ≡ true) × (longest_packet ≤ length output.old) }
    ensures { (result ≡ verdict (view_by log.now n arrived) (arrival_of packet.now arrived)
        (plan (view_by log.now n arrived) (arrival_of packet.now arrived)))
        × (output.new ≡ output_after (view_by log.now n arrived)
        (arrival_of packet.now arrived)
        (plan (view_by log.now n arrived) (arrival_of packet.now arrived))
        output.old) }
{
    let view = seen(log, &outcomes_of(log, n), n, packet, arrived);
    let planned = plan_of(&view, packet, arrived);
    answer_of(&view, packet, arrived, &planned, output)
}

// Whether a destination has a live path at a clock when n calls are listed.
fn has_path(log: &[u8; LOG_SIZE], n: usize, destination: [u8; 16], clock: u64) -> bool
    requires { n ≤ list_limit }
    ensures { result ≡ is_there ((seen_at clock (known_in log.now n)).path destination) }
{
    let path = path_of(log, &outcomes_of(log, n), n, destination);
    live_path(path, clock).is_some()
}

// Takes a packet: its bytes, the arrival port, the clock and the host's word on the signature. The output has room for
// the longest packet.
pub fn take_packet(
    log: &mut [u8; LOG_SIZE],
    packet: &[u8],
    port: u64,
    clock: u64,
    signed: bool,
    output: &mut [u8],
) -> Answer
    ensures { Opines log.old (arrival_by packet.now port clock signed)
        output.old result log.new output.new }
{
    if let Err(refusal) = check_packet(log, packet, port, clock, output.len()) {
        return Answer::Refused(refusal.number());
    }
    let n = listed(log);
    let arrived = Arrived {
        port: port as u8,
        clock,
        signed,
    };
    let verdict = judged(log, n, packet, arrived, output);
    put(log, n, Entry::Came(packet, arrived));
    Answer::Judged(verdict)
}

// Marks a destination's live path unresponsive.
pub fn mark_path_unresponsive(
    log: &mut [u8; LOG_SIZE],
    destination: [u8; 16],
    clock: u64,
) -> Result<(), Refusal>
    ensures { Settles log.old (marks destination clock) (refused_number result) log.new }
{
    let n = room_in(log)?;
    if clock_bad(log, n, clock) {
        return Err(Refusal::Clock);
    }
    if !has_path(log, n, destination, clock) {
        return Err(Refusal::NoLivePath);
    }
    put(log, n, Entry::Marks(destination, clock));
    Ok(())
}
