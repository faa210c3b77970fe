// What the programs read and write: a file that an argument names or another reader, and a text on a writer.
// Entry points: has_argument, read_file, read_full, zeros, print. What is printed lies within its text, which the programs
// show of every line.
#![tactic(auto)]

ghost use Rattle.std.specs.Prelude.{◌≡◌, ◌≤◌, length, take, IfSome, OnOk};
ghost use Rattle.std.specs.Io.KnownBytes.{Appends, Consumes};

use std::env::{Env, FillError};
use std::fs::File;
use std::io::{Read, Write};
use std::rt::Files;
use std::{io, str};
use text::Text;

// The system's paths are shorter.
const LONGEST_PATH: usize = 4_096;

// Writes a text.
pub fn print<W: Write>(out: &mut W, line: Text) -> io::Result<()>
    requires { line.length ≤ length line.bytes }
    ensures { OnOk result (Appends (W.contents out.old) (W.contents out.new) (take line.length line.bytes)) }
{
    out.write_all(&line.bytes[..line.length])
}

// Reads until the buffer is full, the input ends or a read fails. Returns how many bytes it put at the buffer's start,
// and whether a read failed: what was read before it stays.
// Kept: the library's read_exact doesn't say how many bytes it read before the input ended or a read failed.
pub fn read_full<R: Read>(input: &mut R, buffer: &mut [u8]) -> (usize, io::Result<()>)
    ensures fits { result.0 ≤ length buffer.new }
    ensures same_length { length buffer.new ≡ length buffer.old }
    ensures bytes { Consumes (R.remaining input.old) (R.remaining input.new) (take result.0 buffer.new) }
    ensures all { OnOk result.1 (IfSome (R.remaining input.old) (λ bytes. take result.0 buffer.new ≡ take (length buffer.new) bytes)) }
{
    let mut done = 0;
    while done < buffer.len() {
        match input.read(&mut buffer[done..]) {
            Ok(0) => break,
            Ok(n) => done += n,
            Err(e) => return (done, Err(e)),
        }
    }
    (done, Ok(()))
}

// Zeros to read into. The promise has only how many, so that no proof of a caller computes with them one by one.
pub fn zeros<const N: usize>() -> [u8; N]
    ensures { length result ≡ N }
{
    [0; N]
}

// Whether the program was started with this argument. The first is the program's name.
pub fn has_argument(env: &impl Env, argument: usize) -> bool {
    !matches!(env.arg(argument, &mut []), Err(FillError::NotPresent))
}

// Reads the file that an argument names, as far as it fits; no bytes where it can't be opened, and standard error says
// why. Where a read fails the file ends there. An argument that is missing, or longer than any path, is an empty path.
pub fn read_file<R: Env + Files + Eprint + Alloc>(
    rt: &R,
    argument: usize,
    buffer: &mut [u8],
) -> usize
    ensures fits { result ≤ length buffer.new }
    ensures same_length { length buffer.new ≡ length buffer.old }
{
    let mut bytes = [0u8; LONGEST_PATH];
    let n = rt.arg(argument, &mut bytes).unwrap_or(0);
    let Ok(path) = str::from_utf8(&bytes[..n]) else {
        let shown = bytes[..n].escape_ascii();
        let _ = eprintln!(rt; "{shown}: not UTF-8");
        return 0;
    };
    match File::open(rt, path) {
        Ok(mut file) => read_full(&mut file, buffer).0,
        Err(e) => {
            report(rt, path, e);
            0
        }
    }
}

// Says on standard error why a file can't be opened. Where that can't be written, nothing more can be done.
fn report(rt: &(impl Eprint + Alloc), path: &str, error: io::Error) {
    let _ = match error.to_string(rt.alloc()) {
        Ok(text) => {
            let reason = without_code(text.as_str());
            eprintln!(rt; "{path}: {reason}")
        }
        Err(_) => eprintln!(rt; "{path}: {error}"),
    };
}

// The system's words without the error's number after them.
fn without_code(reason: &str) -> &str {
    match reason.split_once(" (os error ") {
        Some((words, _)) => words,
        None => reason,
    }
}
