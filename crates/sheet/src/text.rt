// A text's lines, one after the other: each is tested and its numbers are put; then the numbers of all are copied into the lent lines.
ghost use Rattle.std.specs.Prelude.{◌≡◌, ◌*◌, ◌/◌, ◌≤◌, ◌++◌, length, take, drop};
ghost use Rattle.sheet.specs.Read.{ReadMeets};
ghost use Rattle.sheet.specs.Inner.Promises.{Scanned};

use crate::line::parse;
use crate::order::Seen;
use crate::{LETTER_B, Refusal};
use walker::line_from;

// Reads the text's lines, one after the other: tests each against those before it and puts its numbers. Answers how many there are, or the first refusal.
// A line has at least 20 bytes, so there is room for all.
fn scan(text: &[u8], numbers: &mut [u32]) -> Result<usize, Refusal>
    requires { 8 * (length text.now / 20) ≤ length numbers.old }
    ensures { Scanned text.now result numbers.new }
{
    let mut seen = Seen::nothing();
    let mut at: usize = 0;
    let mut n: usize = 0;
    // A `while`: it goes on by as many bytes as the line has.
    while at < text.len() {
        let line = line_from(text, at);
        let mut eight = [0u32; 8];
        let form = parse(line, &mut eight).ok_or(Refusal::FormWrong(n + 1))?;
        if let Err(fault) = seen.admit(form, &eight) {
            return Err(fault.at(n + 1));
        }
        numbers[8 * n..8 * n + 8].copy_from_slice(&eight);
        at += line.len();
        n += 1;
    }
    if seen.letter == LETTER_B {
        return Err(Refusal::OutOfPlace(n + 1));
    }
    Ok(n)
}

// Puts the first `count` numbers at the front of the lent lines. By `copy_from_slice` the archive for C would need memmove: it uses memcpy and memset alone.
fn copy(numbers: &[u32], lines: &mut [u32], count: usize)
    requires { (count ≤ length numbers.now) × (count ≤ length lines.old) }
    ensures { lines.new ≡ take count numbers.now ++ drop count lines.old }
{
    for i in 0..count {
        lines[i] = numbers[i];
    }
}

// Reads a text, with room for the numbers of as many lines as it can have. The lent lines are written last, when the answer is sure.
fn read_by(text: &[u8], numbers: &mut [u32], lines: &mut [u32]) -> Result<usize, Refusal>
    requires { (length text.now ≤ 32768) × (8 * (length text.now / 20) ≤ length numbers.old) }
    ensures { ReadMeets text.now lines.old result lines.new }
{
    let n = scan(text, numbers)?;
    let room = lines.len() / 8;
    if room < n {
        return Err(Refusal::LinesShort(room + 1));
    }
    copy(numbers, lines, 8 * n);
    Ok(n)
}

// Reads a text, with room of its own for ROOM numbers: eight for each line that the text can have.
pub(crate) fn read_with<const ROOM: usize>(text: &[u8], lines: &mut [u32]) -> Result<usize, Refusal>
    requires { (length text.now ≤ 32768) × (8 * (length text.now / 20) ≤ ROOM) × (ROOM ≤ 13104) }
    ensures { ReadMeets text.now lines.old result lines.new }
{
    let mut numbers = [0u32; ROOM];
    read_by(text, &mut numbers, lines)
}
