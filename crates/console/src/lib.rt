// A program's input and output: one text, from standard input or from the file that the argument names, and one text to standard output.
// The front of a text or of lines is what a program has filled of the room it made.
//
// An argument that is not known, or an input that cannot be read to its end, gives a message on standard error and no text.
#![tactic(auto)]

ghost use Rattle.std.specs.Prelude.{◌≡◌, true, ◌*◌, ◌^◌, ◌<◌, length, take, IsSome};
ghost use Rattle.console.specs.Input.{InBuffer};
ghost use Rattle.console.specs.Run.{Reported};

use std::env::{Env, FillError};
use std::fmt::{Display, Formatter};
use std::io::Read;
use std::rt::Files;
use std::{fmt, fs, io};

// Bytes as a message shows them: what is no UTF-8 among them is shown as U+FFFD.
#[derive(Drop)]
struct Shown<'a>(&'a [u8]);

impl Display for Shown<'_> {
    fn fmt<W: fmt::Write>(&self, f: &mut Formatter<W>) -> fmt::Result {
        for chunk in self.0.utf8_chunks() {
            f.write_str(chunk.valid())?;
            if !chunk.invalid().is_empty() {
                f.write_str("\u{FFFD}")?;
            }
        }
        Ok(())
    }
}

// Writes what failed, and why, to standard error. A message that cannot be written is lost.
fn fail(rt: &impl Eprint, what: &[u8], why: impl Display + Drop) {
    let _ = eprintln!(rt; "{}: {why}", Shown(what));
}

// Reads until the buffer is full or the input ends, and answers how many bytes that are. Where a read fails, `name` and the reason are written to standard error.
fn read_all(
    rt: &impl Eprint,
    reader: &mut impl Read,
    name: &[u8],
    buffer: &mut [u8],
) -> Option<usize>
    ensures { InBuffer result buffer.new }
{
    let mut done: usize = 0;
    // A `while`, for it waits for input: how much each read brings is not known before.
    while done < buffer.len() {
        match reader.read(&mut buffer[done..]) {
            Ok(0) => break,
            Ok(count) => done += count,
            Err(error) => {
                fail(rt, name, error);
                return None;
            }
        }
    }
    Some(done)
}

fn read_standard(rt: &(impl Eprint + io::Input), buffer: &mut [u8]) -> Option<usize>
    ensures { InBuffer result buffer.new }
{
    read_all(rt, &mut rt.reader(), b"standard input", buffer)
}

// Reads the file of that name. A name that is no UTF-8 names no file that can be opened here.
fn read_file(rt: &(impl Eprint + Files), path: &[u8], buffer: &mut [u8]) -> Option<usize>
    ensures { InBuffer result buffer.new }
{
    let Ok(name) = str::from_utf8(path) else {
        fail(rt, path, "a file's name must be UTF-8");
        return None;
    };
    match fs::open(rt, name) {
        Ok(mut file) => read_all(rt, &mut file, path, buffer),
        Err(error) => {
            fail(rt, path, error);
            None
        }
    }
}

// Writes what is wrong with the arguments, and the usage, to standard error.
fn complain(rt: &impl Eprint, what: &[u8], usage: &[u8]) {
    let _ = eprint!(rt; "{}{}", Shown(what), Shown(usage));
}

// Reads as the argument asks: `-` is standard input, `-h` and `--help` ask for the usage, anything else that does not begin with `-` names a file.
fn read_as(
    rt: &(impl Print + Eprint + io::Input + Files),
    argument: &[u8],
    usage: &[u8],
    buffer: &mut [u8],
) -> Option<usize>
    ensures { InBuffer result buffer.new }
{
    match argument {
        b"-" => read_standard(rt, buffer),
        b"-h" | b"--help" => {
            print(rt, usage);
            None
        }
        [b'-', ..] => {
            complain(rt, b"unknown option\n", usage);
            None
        }
        _ => read_file(rt, argument, buffer),
    }
}

// Reads the one argument. It has 4,096 bytes at most, as a path does.
fn read_argument(
    rt: &(impl Print + Eprint + io::Input + Files + Env),
    usage: &[u8],
    buffer: &mut [u8],
) -> Option<usize>
    ensures { InBuffer result buffer.new }
{
    let mut argument = [0; 4096];
    match rt.arg(1, &mut argument) {
        Ok(size) => read_as(rt, &argument[..size], usage, buffer),
        Err(_) => {
            fail(rt, b"argument", "File name too long");
            None
        }
    }
}

// Whether the program was started with such an argument; argument 0 is its name.
fn has_argument(rt: &impl Env, i: usize) -> bool {
    !matches!(rt.arg(i, &mut []), Err(FillError::NotPresent))
}

// Reads the program's input: standard input, or what its one argument names. It fills the buffer from its front, and answers how many bytes that are.
pub fn read_input(
    rt: &(impl Print + Eprint + io::Input + Files + Env),
    usage: &[u8],
    buffer: &mut [u8],
) -> Option<usize>
    ensures { InBuffer result buffer.new }
{
    if !has_argument(rt, 1) {
        return read_standard(rt, buffer);
    }
    if !has_argument(rt, 2) {
        return read_argument(rt, usage, buffer);
    }
    complain(rt, b"more than one argument\n", usage);
    None
}

// Writes a text to standard output. Where it cannot be written, the reason is written to standard error; an empty text needs no writing. Says whether it was written.
pub fn print(rt: &(impl Print + Eprint), text: &[u8]) -> bool
    ensures { length text.now ≡ 0 → result ≡ true }
{
    if text.is_empty() {
        return true;
    }
    match rt.write_all(text) {
        Ok(()) => true,
        Err(error) => {
            fail(rt, b"standard output", error);
            false
        }
    }
}

// The first `size` of the items; all of them where there are fewer.
pub fn front<T>(items: &[T], size: usize) -> &[T]
    ensures { result.now ≡ take size items.now }
{
    items.get(..size).unwrap_or(items)
}

// The first `count` lines, eight numbers each; all of them where there are fewer.
pub fn front_lines(lines: &[u32], count: usize) -> &[u32]
    ensures { result.now ≡ take (8 * count) lines.now }
{
    front(lines, count.saturating_mul(8))
}

// A program that answers its input with a text: reads the input, lets `report` put the answer to it into room for `OUT` bytes, and prints that. An input of
// more than `IN` bytes is seen by its first `IN`. Says how many bytes the answer has; None where there was no input to work on, or `report` had no answer.
pub fn run<const IN: usize, const OUT: usize, R: FnOnce(&[u8], &mut [u8]) -> Option<usize>>(
    rt: &(impl Print + Eprint + io::Input + Files + Env),
    usage: &[u8],
    report: R,
) -> Option<usize>
    requires memory { (IN < 2 ^ 63) × (OUT < 2 ^ 63) }
    requires callable { (text : _) (room : _) → length room.now ≡ OUT → R.pre report text room }
    ensures { IsSome result → Reported (R.post report) IN OUT result }
{
    let mut input = [0; IN];
    let size = read_input(rt, usage, &mut input)?;
    let mut output = [0; OUT];
    let answer = report(front(&input, size), &mut output);
    if let Some(size) = answer {
        print(rt, front(&output, size));
    }
    answer
}
