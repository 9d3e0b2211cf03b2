// Lent lines, eight numbers each: whether they are a sheet, and its text.
ghost use Rattle.std.specs.Prelude.{◌≡◌, cond, true, suc, ◌+◌, ◌*◌, ◌≤◌, ◌<◌, eqb, length, get_or, set, take, drop};
ghost use Rattle.patterns.specs.Outcome.{map_good};
ghost use Rattle.sheet.specs.Line.{K, in_range};
ghost use Rattle.sheet.specs.Write.{sheet_held, write_says};
ghost use Rattle.sheet.specs.Inner.Promises.{size_of, used_of, ranges_right, TextFits, TextFilled, LinePut};

use crate::line::take_apart;
use crate::order::{Seen, width_of};
use crate::{LETTER_B, LETTER_K, Refusal};

// How many of the six numbers are used: a K line's width, otherwise one for each field of the kind.
fn used(widths: &[u8; 65], numbers: &[u32; 8]) -> usize
    requires { (length widths.now ≡ 65) × (length numbers.now ≡ 8) }
    ensures { result ≡ used_of widths.now numbers.now }
{
    if numbers[0] == LETTER_K {
        return 1;
    }
    width_of(widths, numbers[1])
}

// Whether the kind and the used numbers are in range and the unused ones are 0.
fn in_range(numbers: &[u32; 8], fields: usize) -> bool
    requires { (fields ≤ 6) × (length numbers.now ≡ 8) }
    ensures { result ≡ ranges_right numbers.now fields }
{
    let unused = fields + 2;
    numbers[1..unused].iter().all(|&n| n <= 99999999) && numbers[unused..].iter().all(|&n| n == 0)
}

// How long the text of the lent lines is, or the first wrong line.
pub(crate) fn measure(lines: &[u32]) -> Result<usize, Refusal>
    ensures { write_says result ≡ map_good size_of (sheet_held lines.now) }
{
    let mut seen = Seen::nothing();
    let mut size: usize = 0;
    let (whole, rest) = lines.as_chunks::<8>();
    for (n, numbers) in whole.iter().enumerate() {
        let fields = used(&seen.widths, numbers);
        if 6 < fields || !in_range(numbers, fields) {
            return Err(Refusal::LineWrong(n + 1));
        }
        let form = take_apart(numbers[0], fields + 1).ok_or(Refusal::LineWrong(n + 1))?;
        if seen.admit(form, numbers).is_err() {
            return Err(Refusal::LineWrong(n + 1));
        }
        size += 9 * fields + 11;
    }
    if !rest.is_empty() || seen.letter == LETTER_B {
        return Err(Refusal::LineWrong(whole.len() + 1));
    }
    Ok(size)
}

// Puts a line's text at `at`: its letter, its kind and `fields` numbers in columns, byte 10.
fn put_line(text: &mut [u8], at: usize, numbers: &[u32; 8], fields: usize)
    requires { (fields ≤ 6) × (at + 9 * fields + 11 ≤ length text.old) × (get_or numbers.now 0 0 < 256) × (in_range (take (suc fields) (drop 1 numbers.now)) ≡ true) × (length numbers.now ≡ 8) }
    ensures { LinePut text.old at numbers.now fields text.new }
{
    text[at] = numbers[0] as u8;
    for (c, &number) in numbers[1..fields + 2].iter().enumerate() {
        columns::put(text, at + 9 * c + 1, number);
    }
    text[at + 9 * fields + 10] = 10;
}

// Keeps the width that a K line declares.
fn declare(widths: &mut [u8; 65], numbers: &[u32; 8])
    requires { (length widths.old ≡ 65) × (get_or numbers.now 0 0 ≡ K → (get_or numbers.now 1 0 < 65) × (get_or numbers.now 2 0 < 256)) × (length numbers.now ≡ 8) }
    ensures { widths.new ≡ cond (eqb (get_or numbers.now 0 0) K) (set widths.old (get_or numbers.now 1 0) (get_or numbers.now 2 0)) widths.old }
{
    if numbers[0] == LETTER_K {
        widths[numbers[1] as usize] = numbers[2] as u8;
    }
}

// Puts the text of the lent lines at the front of the lent text.
pub(crate) fn fill_text(lines: &[u32], text: &mut [u8])
    requires { TextFits lines.now (length text.old) }
    ensures { TextFilled lines.now text.old text.new }
{
    let mut widths = [0u8; 65];
    let mut at: usize = 0;
    for numbers in lines.as_chunks::<8>().0 {
        let fields = used(&widths, numbers);
        put_line(text, at, numbers, fields);
        declare(&mut widths, numbers);
        at += 9 * fields + 11;
    }
}
