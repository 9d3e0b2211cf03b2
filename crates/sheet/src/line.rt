// A line: its letter, its columns and its byte 10.
ghost use Rattle.std.specs.Prelude.{◌≡◌, length, replicate};
ghost use Rattle.sheet.specs.Line.{form_of, form_says, line_in};
ghost use Rattle.sheet.specs.Inner.Promises.{ParsedAs};

use crate::{Form, LETTER_B, LETTER_H, LETTER_K, LETTER_R};
use columns::number_at;

// The letter and the column count decide.
#[tactic(auto, unfolding(crate::specs::Line::form_of))]
pub(crate) fn take_apart(letter: u32, columns: usize) -> Option<Form>
    ensures { form_says result ≡ form_says (form_of letter columns) }
{
    match (letter, columns) {
        (LETTER_K, 2) => Some(Form::Kind),
        (LETTER_B, 2..=7) => Some(Form::Body(columns - 1)),
        (LETTER_H, 2..=7) => Some(Form::Head(columns - 1)),
        (LETTER_R, 2..=7) => Some(Form::Row(columns - 1)),
        _ => None,
    }
}

// Reads the line that the bytes are, with their byte 10: its form, and its eight lent numbers, which are 0 before.
pub(crate) fn parse(line: &[u8], numbers: &mut [u32; 8]) -> Option<Form>
    requires { numbers.old ≡ replicate 8 0 }
    ensures { ParsedAs (line_in line.now) result numbers.new × (length numbers.new ≡ 8) }
{
    let size = line.len();
    if size < 2 {
        return None;
    }
    let columns = (size - 2) / 9;
    if size != 9 * columns + 2 {
        return None;
    }
    if line[size - 1] != 10 {
        return None;
    }
    let letter = u32::from(line[0]);
    let form = take_apart(letter, columns)?;
    numbers[0] = letter;
    for c in 0..columns {
        numbers[c + 1] = number_at(line, 9 * c + 1)?;
    }
    Some(form)
}
