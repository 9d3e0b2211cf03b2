// The rules of a sheet, and the lent lines of which they are.
use sheet::{LETTER_B, LETTER_H, LETTER_K};

// A lent line: its letter, its kind and the six numbers of its fields. A K line has its width as the first of these.
pub(crate) type Line = [u32; 8];

// The numbers of a line's fields.
pub(crate) fn numbers(line: &Line) -> [u32; 6] {
    let mut numbers = [0; 6];
    numbers.copy_from_slice(&line[2..]);
    numbers
}

// A rule: the place of its B line, what that line says, and the H lines that follow it.
#[derive(Clone, Copy)]
pub(crate) struct Rule<'a> {
    pub at: u16,
    pub kind: u32,
    pub marks: [u32; 6],
    pub heads: &'a [Line],
}

// The rule whose B line is line `at`; None where that is none. A sheet has fewer than 65,536 lines.
pub(crate) fn rule_at(lines: &[Line], at: usize) -> Option<Rule<'_>> {
    let (body, after) = lines.get(at..)?.split_first()?;
    if body[0] != LETTER_B {
        return None;
    }
    let heads = after.iter().take_while(|line| line[0] == LETTER_H).count();
    Some(Rule {
        at: u16::try_from(at).ok()?,
        kind: body[1],
        marks: numbers(body),
        heads: &after[..heads],
    })
}

// The place of the line that is number `which`, counted from 1, among those with a letter.
pub(crate) fn nth(lines: &[Line], letter: u32, which: usize) -> Option<usize> {
    let mut left = which;
    for (n, line) in lines.iter().enumerate() {
        if line[0] == letter {
            left = left.checked_sub(1)?;
            if left == 0 {
                return Some(n);
            }
        }
    }
    None
}

// The width of a kind; 0 where it is not declared.
pub(crate) fn width(lines: &[Line], kind: u32) -> usize {
    for line in lines {
        if line[0] == LETTER_K && line[1] == kind {
            return line[2] as usize;
        }
    }
    0
}

// For each field the place of the first field that is equal.
pub(crate) fn firsts<T: Eq>(fields: &[T; 6]) -> [u8; 6] {
    let mut places = [0; 6];
    for (place, field) in places.iter_mut().zip(fields) {
        for (n, other) in (0..6).zip(fields) {
            if other == field {
                *place = n;
                break;
            }
        }
    }
    places
}
