// The search for the shapes that the rules reach from the rows.
ghost use Rattle.std.specs.Prelude.{◌≡◌, [], ◌∷◌, ◌+◌, ◌*◌, ◌≤◌, ◌<◌, length, get_or, set, IfSome};
ghost use Rattle.patterns.specs.Pattern.{numbers_pattern};
ghost use Rattle.rules.specs.Table.{SheetHeld, rules_in, rows_in, table_rules, KindFits, TableFits};
ghost use Rattle.judging.specs.Inner.Codes.{CodeIs};
ghost use Rattle.judging.specs.Inner.Firing.{ByKind};
ghost use Rattle.judging.specs.Inner.Found.{NoneFired, Searched};
ghost use Rattle.judging.specs.Inner.Noted.{Noted};
ghost use Rattle.rules.specs.Inner.Bytes.{Clear};
ghost use Rattle.rules.specs.Inner.Rows.{row_numbers, RowAt};
ghost use Rattle.judging.specs.Inner.Rows.{RowsFound, RowsTried};

use crate::notes::{Note, note};
use crate::shape::{made, next_fire, rule_byte, shape_code};
use sheet::{LETTER_K, LETTER_R};

// How a shape was reached: one more than the place of the shape that it was made of, 0 where a row has it; the number of the rule that made it, or of the row; the number of the rule's H line, 0 where a row has it. In fixed memory an Option would take twice the room.
pub(crate) type Way = [u16; 3];

// 17,792 zeros.
pub(crate) fn no_index() -> [u16; 17792]
    ensures { Clear result 17792 }
{
    [0u16; 17792]
}

// Puts a shape at place `count`, with how it was reached.
fn push(
    shapes: &mut [u32; 512],
    index: &mut [u16; 17792],
    ways: &mut [Way; 512],
    count: usize,
    code: usize,
    parent: usize,
    maker: usize,
    line: usize,
)
    requires { (count < 512) × (code < 17792) × (parent ≤ 1024) × (maker ≤ 1024) × (line ≤ 1024) }
    ensures { (shapes.new ≡ set shapes.old count code) × (index.new ≡ set index.old code (count + 1)) × (ways.new ≡ set ways.old count (parent ∷ maker ∷ line ∷ [])) }
{
    shapes[count] = code as u32;
    index[code] = (count + 1) as u16;
    ways[count] = [parent as u16, maker as u16, line as u16];
}

// The shape of the row at line `n`, whose kind has this width.
fn row_code(lines: &[u32], n: usize, width: usize) -> usize
    requires { KindFits (get_or lines.now (8 * n + 1) 0) × (1 ≤ width) × (width ≤ 6) × (8 * n + 8 ≤ length lines.now) }
    ensures { CodeIs (get_or lines.now (8 * n + 1) 0) (numbers_pattern (row_numbers lines.now n width)) result }
{
    let at = 8 * n + 2;
    let end = at + width;
    shape_code(lines[8 * n + 1], &lines[at..end])
}

// Finds the shape of the row at line `n`. Answers how many shapes there are then; None where that would be a 513th.
fn find_row(
    lines: &[u32],
    n: usize,
    width: usize,
    row: usize,
    shapes: &mut [u32; 512],
    index: &mut [u16; 17792],
    ways: &mut [Way; 512],
    count: usize,
) -> Option<usize>
    requires { RowAt lines.now n width (row + 1) × RowsFound (rules_in lines.now) (rows_in lines.now) shapes.old index.old ways.old count row }
    ensures { RowsTried (rules_in lines.now) (rows_in lines.now) shapes.new index.new ways.new (row + 1) result }
{
    let code = row_code(lines, n, width);
    if index[code] != 0 {
        return Some(count);
    }
    if count == 512 {
        return None;
    }
    push(shapes, index, ways, count, code, 0, row + 1, 0);
    Some(count + 1)
}

// Finds the shapes of the rows. Answers how many there are; None where there are more than 512.
fn find_rows(
    lines: &[u32],
    shapes: &mut [u32; 512],
    index: &mut [u16; 17792],
    ways: &mut [Way; 512],
) -> Option<usize>
    requires { SheetHeld lines.now × (length shapes.old ≡ 512) × Clear index.old 17792 × (length ways.old ≡ 512) }
    ensures { RowsTried (rules_in lines.now) (rows_in lines.now) shapes.new index.new ways.new (length (rows_in lines.now)) result }
{
    let mut widths = [0u32; 65];
    let mut count: usize = 0;
    let mut row: usize = 0;
    for (n, line) in lines.as_chunks::<8>().0.iter().enumerate() {
        let kind = line[1] as usize;
        if line[0] == LETTER_K {
            widths[kind] = line[2];
        } else if line[0] == LETTER_R {
            let width = widths[kind] as usize;
            count = find_row(lines, n, width, row, shapes, index, ways, count)?;
            row += 1;
        }
    }
    Some(count)
}

// Finds the shapes that the rules reach from the rows, up to 512, in the order of discovery, and which rules fire. Answers how many shapes there are; None where there are more. Notes the firings.
pub(crate) fn search(
    lines: &[u32],
    table: &[u8; 16384],
    rules: usize,
    kinds: &[u16; 321],
    shapes: &mut [u32; 512],
    // One more than the place of a shape among those found; 0 where it was not found, since an Option would take twice the room.
    index: &mut [u16; 17792],
    ways: &mut [Way; 512],
    notes: &mut [Note],
    // Where the notes of each shape begin; those of the last end where the next would begin.
    starts: &mut [u32; 513],
    // Whether a rule fires on a shape that was found.
    fired: &mut [bool; 256],
) -> Option<usize>
    requires { SheetHeld lines.now × TableFits table.now rules × (table_rules table.now rules ≡ rules_in lines.now) × (length shapes.old ≡ 512) × Clear index.old 17792 × (length ways.old ≡ 512) × ByKind table.now rules kinds.now
        × (length notes.old ≤ 8192) × (length starts.old ≡ 513) × NoneFired fired.old }
    ensures { Searched (rules_in lines.now) (rows_in lines.now) shapes.new index.new ways.new fired.new result
        × IfSome result (Noted table.now rules shapes.new index.new notes.new starts.new) }
{
    let mut count = find_rows(lines, shapes, index, ways)?;
    let patterns = sheet::pattern_table();
    let mut k: usize = 0;
    starts[0] = 0;
    let mut s: usize = 0;
    // The shapes that are found are followed in turn, and there are more of them from then on.
    while s < count {
        let shape = shapes[s] as usize;
        let kind = shape / 278 + 1;
        let digits = sheet::digits_in(&patterns, shape % 278 + 1);
        let mut next = next_fire(table, rules, kinds, kind, kind, digits);
        // This walks the chain of the rules that fire.
        while let Some(r) = next {
            fired[r] = true;
            let heads = rule_byte(table, r, 28);
            for h in 0..heads {
                let code = made(table, rules, r, h, digits);
                if index[code] == 0 {
                    if count == 512 {
                        return None;
                    }
                    push(shapes, index, ways, count, code, s + 1, r + 1, h + 1);
                    count += 1;
                }
                note(notes, k, 8 * r + 2 * h, index[code]);
                k += 1;
            }
            next = next_fire(table, rules, kinds, 65 + r, kind, digits);
        }
        starts[s + 1] = k as u32;
        s += 1;
    }
    Some(count)
}
