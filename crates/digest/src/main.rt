// Reads a message on standard input and writes its SHA-256 digest as a line of hexadecimal digits.
// A message of more than 65,535 bytes gives the line `refused 2`.
#![tactic(auto)]

ghost use Rattle.std.specs.Prelude.{◌≡◌, IfSome, OnOk};
ghost use Rattle.std.specs.Io.KnownBytes.{Appends};
ghost use Rattle.sha256.specs.Sha256.{answer, digest_as};
ghost use Rattle.text.specs.Text.{text_of};
ghost use Rattle.digest.specs.Line.{digest_line};

use console::{print, read_full};
use numbers::Refusal;
use std::io;
use std::io::{Read, Write};
use text::Text;

// The longest message and one byte more, so that a longer one shows.
const ROOM: usize = 65_536;

fn line(digest: Option<[u8; 32]>) -> Text
    ensures { result ≡ text_of (digest_line (digest_as digest)) }
{
    match digest {
        Some(bytes) => {
            text::with_character(text::with_hexadecimal(text::empty(), &bytes), b'\n')
        }
        None => text::refused_line(Refusal::TooLong.number()),
    }
}

// Writes the line of the message that the input is, or of as much as could be read of it, and then fails.
fn write_digest<R: Read, W: Write>(input: &mut R, out: &mut W) -> io::Result<()>
    ensures { OnOk result (IfSome (R.remaining input.old) (λ message. Appends (W.contents out.old) (W.contents out.new) (digest_line (answer message)))) }
{
    let mut buffer = [0u8; ROOM];
    let (n, read) = read_full(input, &mut buffer);
    let printed = print(out, line(sha256::sha256(&buffer[..n])));
    read.and(printed)
}

fn main(rt: HostRuntime) -> io::Result<()> {
    write_digest(&mut rt.reader(), &mut io::writer(&rt))
}
