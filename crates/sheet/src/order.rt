// The tests of a line against the lines before it: place, kind and width, marks, counts.
ghost use Rattle.std.specs.Prelude.{◌≡◌, [], ◌≤◌, length, get_or, take, drop};
ghost use Rattle.sheet.specs.Sheet.{in_place};
ghost use Rattle.sheet.specs.Inner.Promises.{Keeps, Admits, FieldsFit, RefusalIs, Marked, marks_top, placed_of, declares, fault_number, fault_in};

use crate::{Form, LETTER_B, LETTER_H, LETTER_K, LETTER_R, Refusal};

// What is kept of the lines before. `mark` is the largest of the open rule's marks, `heads` the number of its H lines, `widths` those of the
// declared kinds, at the kinds' places. A letter, a kind or a width is 0 where there is none, as `letter_before` and `width_of` say.
#[derive(Clone, Copy)]
pub(crate) struct Seen {
    pub letter: u32,
    pub kind: u32,
    pub mark: u32,
    pub rules: u32,
    pub heads: u32,
    pub rows: u32,
    pub widths: [u8; 65],
}

// What is wrong with a line that is in its form, beside the lines before it.
#[derive(Clone, Copy)]
pub(crate) enum Fault {
    // It is out of place.
    Place,
    // Its kind or its width is outside its range or order, not declared, or not the line's.
    Width,
    // One of its marks is outside its range or order.
    Mark,
    // It is a rule, an H line or a row too many.
    Room,
}

impl Fault {
    // The refusal of a line with this fault.
    pub(crate) fn at(self, line: usize) -> Refusal
        ensures { RefusalIs result (fault_number self) line }
    {
        match self {
            Fault::Place => Refusal::OutOfPlace(line),
            Fault::Width => Refusal::KindWrong(line),
            Fault::Mark => Refusal::MarkWrong(line),
            Fault::Room => Refusal::OneTooMany(line),
        }
    }
}

// The width that is declared for a kind; 0 where none is: no line has so few fields, and the filling needs the number alone.
pub(crate) fn width_of(widths: &[u8; 65], kind: u32) -> usize
    requires { length widths.now ≡ 65 }
    ensures { result ≡ get_or widths.now kind 0 }
{
    if kind < 65 {
        return usize::from(widths[kind as usize]);
    }
    0
}

// The largest of some marks, where they are right after the mark `m`.
fn top_mark(marks: &[u32], m: u32) -> Option<u32>
    ensures { result ≡ marks_top m marks.now }
{
    let mut top = m;
    for &mark in marks {
        if mark < 1 || 12 < mark {
            return None;
        }
        if top < mark - 1 {
            return None;
        }
        top = top.max(mark);
    }
    Some(top)
}

// Whether a line with this letter may follow a line with the letter `last`.
#[tactic(auto, unfolding(crate::specs::Sheet::in_place))]
fn in_place(last: u32, letter: u32) -> bool
    ensures { result ≡ in_place last letter }
{
    match letter {
        LETTER_K => matches!(last, 0 | LETTER_K),
        LETTER_B => matches!(last, 0 | LETTER_K | LETTER_H),
        LETTER_H => matches!(last, LETTER_B | LETTER_H),
        _ => last != LETTER_B,
    }
}

// Whether a K line's kind and width are right after the kind `last`.
fn declared(last: u32, kind: u32, width: u32) -> bool
    ensures { result ≡ declares last kind width }
{
    1 <= kind && kind <= 64 && last < kind && 1 <= width && width <= 6
}

impl Seen {
    // Before the first line.
    pub(crate) fn nothing() -> Seen
        ensures { Keeps [] result }
    {
        Seen {
            letter: 0,
            kind: 0,
            mark: 0,
            rules: 0,
            heads: 0,
            rows: 0,
            widths: [0; 65],
        }
    }

    // Whether a B, H or R line is in its place and of a declared kind with so many fields.
    fn placed(&self, letter: u32, kind: u32, fields: usize) -> Result<(), Fault>
        requires { length self.now.widths ≡ 65 }
        ensures { fault_in result ≡ placed_of self.now.letter letter fields (get_or self.now.widths kind 0) }
    {
        let width = width_of(&self.widths, kind);
        if !in_place(self.letter, letter) {
            return Err(Fault::Place);
        }
        if width == 0 || fields != width {
            return Err(Fault::Width);
        }
        Ok(())
    }

    // The largest mark of a B or H line's rule, which was `mark` before the line, where the line is right and there is room for it.
    fn marked(
        &self,
        letter: u32,
        numbers: &[u32; 8],
        fields: usize,
        mark: u32,
        full: bool,
    ) -> Result<u32, Fault>
        requires { (length self.now.widths ≡ 65) × (fields ≤ 6) × (length numbers.now ≡ 8) }
        ensures { Marked (placed_of self.now.letter letter fields (get_or self.now.widths (get_or numbers.now 1 0) 0)) (marks_top mark (take fields (drop 2 numbers.now))) full result }
    {
        self.placed(letter, numbers[1], fields)?;
        let top = top_mark(&numbers[2..fields + 2], mark).ok_or(Fault::Mark)?;
        if full {
            return Err(Fault::Room);
        }
        Ok(top)
    }

    fn admit_kind(&mut self, numbers: &[u32; 8]) -> Result<(), Fault>
        requires { (length self.old.widths ≡ 65) × (length numbers.now ≡ 8) }
        ensures { Admits self.old Form.Kind numbers.now result self.new }
    {
        let kind = numbers[1];
        let width = numbers[2];
        if !in_place(self.letter, LETTER_K) {
            return Err(Fault::Place);
        }
        if !declared(self.kind, kind, width) {
            return Err(Fault::Width);
        }
        self.letter = LETTER_K;
        self.kind = kind;
        self.mark = 0;
        self.heads = 0;
        self.widths[kind as usize] = width as u8;
        Ok(())
    }

    fn admit_body(&mut self, numbers: &[u32; 8], fields: usize) -> Result<(), Fault>
        requires { (length self.old.widths ≡ 65) × (fields ≤ 6) × (length numbers.now ≡ 8) }
        ensures { Admits self.old (Form.Body fields) numbers.now result self.new }
    {
        let mark = self.marked(LETTER_B, numbers, fields, 0, self.rules >= 256)?;
        self.letter = LETTER_B;
        self.kind = numbers[1];
        self.mark = mark;
        self.rules += 1;
        self.heads = 0;
        Ok(())
    }

    fn admit_head(&mut self, numbers: &[u32; 8], fields: usize) -> Result<(), Fault>
        requires { (length self.old.widths ≡ 65) × (fields ≤ 6) × (length numbers.now ≡ 8) }
        ensures { Admits self.old (Form.Head fields) numbers.now result self.new }
    {
        let mark = self.marked(LETTER_H, numbers, fields, self.mark, self.heads >= 4)?;
        self.letter = LETTER_H;
        self.kind = numbers[1];
        self.mark = mark;
        self.heads += 1;
        Ok(())
    }

    fn admit_row(&mut self, numbers: &[u32; 8], fields: usize) -> Result<(), Fault>
        requires { (length self.old.widths ≡ 65) × (length numbers.now ≡ 8) }
        ensures { Admits self.old (Form.Row fields) numbers.now result self.new }
    {
        self.placed(LETTER_R, numbers[1], fields)?;
        if self.rows >= 1024 {
            return Err(Fault::Room);
        }
        self.letter = LETTER_R;
        self.kind = numbers[1];
        self.mark = 0;
        self.heads = 0;
        self.rows += 1;
        Ok(())
    }

    // Tests a line of this form against the lines before it, and keeps it where it is right.
    pub(crate) fn admit(&mut self, form: Form, numbers: &[u32; 8]) -> Result<(), Fault>
        requires { (length self.old.widths ≡ 65) × FieldsFit form × (length numbers.now ≡ 8) }
        ensures { Admits self.old form numbers.now result self.new }
    {
        match form {
            Form::Kind => self.admit_kind(numbers),
            Form::Body(fields) => self.admit_body(numbers, fields),
            Form::Head(fields) => self.admit_head(numbers, fields),
            Form::Row(fields) => self.admit_row(numbers, fields),
        }
    }
}
