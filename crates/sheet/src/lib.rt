// Sheets of follow-up rules: text to lines and lines to text. Passes on the column of a number and the pattern of a record.
#![tactic(auto)]

mod lent;
mod line;
mod order;
mod text;

ghost use Rattle.std.specs.Prelude.{◌≡◌};
ghost use Rattle.sheet.specs.Answer.{refusal_number, refusal_line};
ghost use Rattle.sheet.specs.Read.{ReadMeets};
ghost use Rattle.sheet.specs.Write.{WriteMeets};

pub use columns::column;
pub use patterns::{digits, digits_in, pattern, pattern_table};

// The first number of a line that declares a kind.
pub const LETTER_K: u32 = b'K' as u32;

// The first number of a line that begins a rule.
pub const LETTER_B: u32 = b'B' as u32;

// The first number of a line for a record that the rule makes.
pub const LETTER_H: u32 = b'H' as u32;

// The first number of a row's line.
pub const LETTER_R: u32 = b'R' as u32;

// Why a call is refused. A refusal that names a line holds its number, counted from 1.
#[derive(Clone, Copy, PartialEq, Eq)]
pub enum Refusal {
    // The text is over 32,768 bytes.
    TextTooLong,
    // A line is not in the form, or has no byte 10.
    FormWrong(usize),
    // A line is out of place, or the last rule has no H line.
    OutOfPlace(usize),
    // A kind or a width is outside its range or order, not declared, or not the line's.
    KindWrong(usize),
    // A mark is outside its range or order.
    MarkWrong(usize),
    // A rule, an H line or a row too many.
    OneTooMany(usize),
    // More lines than were lent.
    LinesShort(usize),
    // A lent line is none of a sheet.
    LineWrong(usize),
    // The lent text is too short.
    TextShort,
}

// A refusal in document 01's numbers; line 0 where none is named.
#[derive(Clone, Copy)]
pub struct RefusalNumbers {
    pub number: usize,
    pub line: usize,
}

// How a line is taken apart, with the number of its fields.
#[derive(Clone, Copy)]
pub enum Form {
    Kind,
    Body(usize),
    Head(usize),
    Row(usize),
}

// Reads a text into lent lines, eight numbers each, and answers how many lines. A good call changes the lines that it counts and nothing else; a refusal changes nothing.
pub fn read(text: &[u8], lines: &mut [u32]) -> Result<usize, Refusal>
    ensures { ReadMeets text.now lines.old result lines.new }
{
    if 32768 < text.len() {
        return Err(Refusal::TextTooLong);
    }
    // 5,120 bytes can have 256 lines, the longest text 1,638: less room is cleared for a small sheet.
    if text.len() <= 5120 {
        return text::read_with::<2048>(text, lines);
    }
    text::read_with::<13104>(text, lines)
}

// Writes lent lines, eight numbers each, as text, and answers how many bytes. A good call changes the bytes that it counts and nothing else; a refusal changes nothing.
pub fn write(lines: &[u32], text: &mut [u8]) -> Result<usize, Refusal>
    ensures { WriteMeets lines.now text.old result text.new }
{
    let size = lent::measure(lines)?;
    if 32768 < size {
        return Err(Refusal::TextTooLong);
    }
    if text.len() < size {
        return Err(Refusal::TextShort);
    }
    lent::fill_text(lines, text);
    Ok(size)
}

// The number and the line of a refusal.
pub fn refusal_numbers(refusal: Refusal) -> RefusalNumbers
    ensures { (result.number ≡ refusal_number refusal) × (result.line ≡ refusal_line refusal) }
{
    match refusal {
        Refusal::TextTooLong => RefusalNumbers { number: 1, line: 0 },
        Refusal::FormWrong(line) => RefusalNumbers { number: 2, line },
        Refusal::OutOfPlace(line) => RefusalNumbers { number: 3, line },
        Refusal::KindWrong(line) => RefusalNumbers { number: 4, line },
        Refusal::MarkWrong(line) => RefusalNumbers { number: 5, line },
        Refusal::OneTooMany(line) => RefusalNumbers { number: 6, line },
        Refusal::LinesShort(line) => RefusalNumbers { number: 7, line },
        Refusal::LineWrong(line) => RefusalNumbers { number: 8, line },
        Refusal::TextShort => RefusalNumbers { number: 9, line: 0 },
    }
}
