// The packet call of a host.
ghost use Rattle.std.specs.Prelude.{eqb};
ghost use Rattle.relay.specs.Promise.{packet_on};
ghost use Rattle.crossing.specs.Answers.{Answers};
ghost use Rattle.crossing.specs.Packets.{payload_place};

use super::packets::haskumye_payload_start;
use crossing::answer_number;
use rules::Tally;

// What the call by value returns.
#[derive(Clone, Copy)]
pub struct Numbered {
    pub number: u64,
    pub tally: Tally,
}

// `relay::judge`, with the signature word as a byte and the answer as one number.
fn judge_numbered(
    packet: &[u8],
    port: u64,
    clock: u64,
    signed: u8,
    tables: &mut [u8],
    output: &mut [u8],
    tally: Tally,
) -> Numbered
    ensures { Answers
        (packet_on packet.now port clock (eqb signed 1) tables.old tally output.old)
        (payload_place packet.now) result.number result.tally tables.new output.new }
{
    let judged = relay::judge(packet, port, clock, signed == 1, tables, output, tally);
    let answer = judged.answer;
    let after = judged.tally;
    Numbered {
        number: answer_number(answer, haskumye_payload_start(packet)),
        tally: after,
    }
}

// A packet that came by a port at a clock; `signed` is 1 where the host found its signature good, any other number
// where not. Tables, output and tally are changed where they lie.
// One number: bits 0 to 7 are 0 refused, 1 drop, 2 deliver, 3 forward, 4 spread, 5 kept; bits 8 to 15 the refusal's
// number, or the test's that dropped it. Of a drop, bits 16 to 19 are the clause of test 3 or the case of test 6, bits
// 20 to 60 the value that goes with it, 0 where there is none. Of any other, bits 16 to 31 are the port of a forward,
// or the ports of a spread, bit i for port i; bits 32 to 47 the length that leaves; bits 48 to 63 where a delivered
// payload starts.
#[unsafe(no_mangle)]
pub extern "C" fn haskumye_packet(
    packet: &[u8],
    port: u64,
    clock: u64,
    signed: u8,
    tables: &mut [u8],
    output: &mut [u8],
    tally: &mut Tally,
) -> u64
    ensures { Answers
        (packet_on packet.now port clock (eqb signed 1)
        tables.old tally.old output.old)
        (payload_place packet.now) result tally.new tables.new output.new }
{
    let j = judge_numbered(packet, port, clock, signed, tables, output, *tally);
    *tally = j.tally;
    j.number
}
