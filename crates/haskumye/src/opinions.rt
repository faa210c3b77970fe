// The second opinion: the calls of a relay, answered from the list of accepted calls that a log holds. Any bytes are a
// log. Each call but the first returns a refusal, by its number; it changes no byte.
ghost use Rattle.std.specs.Prelude.{eqb};
ghost use Rattle.rules.specs.Calls.{sets_port, sets_rate, adds, removes, renumbers, marks};
ghost use Rattle.opinion.specs.Steps.{arrival_by};
ghost use Rattle.opinion.specs.Calls.{IsFresh, Settles};
ghost use Rattle.crossing.specs.Packets.{payload_place};
ghost use Rattle.haskumye.specs.Opinions.{OpinesBy};

use super::packets::haskumye_payload_start;
use crossing::answer_number;
use numbers::refused_number;
use opinion::LOG_SIZE;

// A log of a relay with its own address, in which nothing is listed.
#[unsafe(no_mangle)]
pub extern "C" fn haskumye_opinion_fresh(log: &mut [u8; LOG_SIZE], own: &[u8; 16])
    ensures { IsFresh own.now log.new }
{
    let address = *own;
    opinion::fresh(log, address);
}

// A packet that came by a port at a clock. The answer is one number, as `haskumye_packet` returns it.
#[unsafe(no_mangle)]
pub extern "C" fn haskumye_opinion_packet(
    packet: &[u8],
    port: u64,
    clock: u64,
    signed: u8,
    log: &mut [u8; LOG_SIZE],
    output: &mut [u8],
) -> u64
    ensures { OpinesBy log.old (arrival_by packet.now port clock (eqb signed 1))
        (payload_place packet.now) output.old result log.new output.new }
{
    let answer = opinion::take_packet(log, packet, port, clock, signed == 1, output);
    answer_number(answer, haskumye_payload_start(packet))
}

// Sets a port on, by 1, or off, by any other number, its mode and its size.
#[unsafe(no_mangle)]
pub extern "C" fn haskumye_opinion_set_port(
    log: &mut [u8; LOG_SIZE],
    port: u64,
    on: u8,
    mode: u64,
    size: u64,
) -> u8
    ensures { Settles log.old (sets_port port (eqb on 1) mode size) result log.new }
{
    refused_number(opinion::set_port(log, port, on == 1, mode, size))
}

// Sets the announce rate: target interval, grace and penalty.
#[unsafe(no_mangle)]
pub extern "C" fn haskumye_opinion_set_announce_rate(
    log: &mut [u8; LOG_SIZE],
    target: u64,
    grace: u64,
    penalty: u64,
) -> u8
    ensures { Settles log.old (sets_rate target grace penalty) result log.new }
{
    refused_number(opinion::set_rate(log, target, grace, penalty))
}

// Adds a local address.
#[unsafe(no_mangle)]
pub extern "C" fn haskumye_opinion_add_local(log: &mut [u8; LOG_SIZE], address: &[u8; 16]) -> u8
    ensures { Settles log.old (adds address.now) result log.new }
{
    let bytes = *address;
    refused_number(opinion::add_local(log, bytes))
}

// Removes a local address.
#[unsafe(no_mangle)]
pub extern "C" fn haskumye_opinion_remove_local(log: &mut [u8; LOG_SIZE], address: &[u8; 16]) -> u8
    ensures { Settles log.old (removes address.now) result log.new }
{
    let bytes = *address;
    refused_number(opinion::remove_local(log, bytes))
}

// Marks a destination's live path unresponsive.
#[unsafe(no_mangle)]
pub extern "C" fn haskumye_opinion_mark_path_unresponsive(
    log: &mut [u8; LOG_SIZE],
    destination: &[u8; 16],
    clock: u64,
) -> u8
    ensures { Settles log.old (marks destination.now clock) result log.new }
{
    let address = *destination;
    refused_number(opinion::mark_path_unresponsive(log, address, clock))
}

// Renumbers the ports.
#[unsafe(no_mangle)]
pub extern "C" fn haskumye_opinion_renumber(log: &mut [u8; LOG_SIZE], map: &[u8; 16]) -> u8
    ensures { Settles log.old (renumbers map.now) result log.new }
{
    let bytes = *map;
    refused_number(opinion::renumber(log, bytes))
}
