// Shows the packet on standard input as one line on standard output.
#![tactic(auto)]

ghost use Rattle.std.specs.Prelude.{IfSome, OnOk};
ghost use Rattle.std.specs.Io.KnownBytes.{Appends};
ghost use Rattle.line.specs.Line.{line_text};

use console::{print, read_full};
use packet::LONGEST_PACKET;
use std::io;
use std::io::{Read, Write};

// One byte more than the longest packet: what is longer is refused by its first 501 bytes, and read no further.
const ROOM: usize = LONGEST_PACKET + 1;

// Writes the line of the packet that the input is, or of as much as could be read of it, and then fails.
fn show_packet<R: Read, W: Write>(input: &mut R, out: &mut W) -> io::Result<()>
    ensures { OnOk result (IfSome (R.remaining input.old) (λ packet. Appends (W.contents out.old) (W.contents out.new) (line_text packet))) }
{
    let mut buffer = [0u8; ROOM];
    let (n, read) = read_full(input, &mut buffer);
    let printed = print(out, line::line_of(&buffer[..n]));
    read.and(printed)
}

fn main(rt: HostRuntime) -> io::Result<()> {
    show_packet(&mut rt.reader(), &mut io::writer(&rt))
}
