// The table's rows, with which a run begins.
ghost use Rattle.std.specs.Prelude.{◌≡◌, suc, ◌+◌, ◌*◌, ◌≤◌, ◌<◌, max, length, get_or, take, drop};
ghost use Rattle.chase.specs.Lists.{largest};
ghost use Rattle.rules.specs.Table.{SheetHeld, lines_in};
ghost use Rattle.rules.specs.Inner.Bytes.{Clear};
ghost use Rattle.rules.specs.Inner.Rows.{row_numbers};
ghost use Rattle.carrying.specs.Carrying.{numbers_in, filled, zeros, table_rows};
ghost use Rattle.running.specs.Inner.Held.{packed, records_fit};
ghost use Rattle.running.specs.Inner.Begun.{RowsIn, Begun};

use crate::records::add;
use crate::visits::Counts;
use sheet::{LETTER_K, LETTER_R};

// The largest of `m` and the six numbers of a line.
fn largest_in(line: &[u32; 8], m: usize) -> usize
    requires { length line.now ≡ 8 }
    ensures { result ≡ max m (largest (take 6 (drop 2 line.now))) }
{
    let mut t = m;
    for &x in &line[2..] {
        t = t.max(x as usize);
    }
    t
}

// The table's largest value; 0 where there is none.
fn largest_value(lines: &[u32]) -> usize
    requires { SheetHeld lines.now }
    ensures { (result ≡ largest (numbers_in (table_rows (lines_in lines.now)))) × (result ≤ 99999999) }
{
    let mut t: usize = 0;
    for line in lines.as_chunks::<8>().0 {
        if line[0] == LETTER_R {
            t = largest_in(line, t);
        }
    }
    t
}

// A row with its zeros filled, and the number after the last one given.
#[derive(Clone, Copy)]
struct FilledRow {
    row: [u32; 7],
    next: usize,
}

// The seven numbers of a row's line, whose kind has this width. Each 0 gets the next number.
fn row_at(line: &[u32; 8], width: usize, next: usize) -> FilledRow
    requires { (length line.now ≡ 8) × (width ≤ 6) × (get_or line.now 1 0 ≤ 64) × (next ≤ 4294960000) }
    ensures { (result.row ≡ packed (record { kind = get_or line.now 1 0; numbers = filled next (take width (drop 2 line.now)) }))
        × (result.next ≡ next + zeros (take width (drop 2 line.now))) }
{
    let mut row = [0u32; 7];
    row[0] = (line[1] as usize * 8 + width) as u32;
    let mut given = next;
    for k in 0..width {
        let mut x = line[2 + k];
        if x == 0 {
            x = given as u32;
            given += 1;
        }
        row[1 + k] = x;
    }
    FilledRow { row, next: given }
}

// Puts the rows in order, each 0 with the next number, from `first` on, and repeats dropped.
fn put_rows(lines: &[u32], rows: &mut [u32], index: &mut [u16], by: usize, first: usize) -> Counts
    requires { SheetHeld lines.now × records_fit rows.old × Clear index.old 24576 × (by < 2147483648) × (first ≤ 100000000) }
    ensures { RowsIn lines.now rows.old rows.new index.new first result }
{
    let mut widths = [0u32; 65];
    let mut count: usize = 0;
    let mut next = first;
    for line in lines.as_chunks::<8>().0 {
        let kind = line[1] as usize;
        if line[0] == LETTER_K {
            widths[kind] = line[2];
        } else if line[0] == LETTER_R {
            let filled = row_at(line, widths[kind] as usize, next);
            next = filled.next;
            // There are at most 1,024 rows.
            count = add(rows, index, by, count, &filled.row).unwrap();
        }
    }
    Counts {
        rows: count,
        pairs: 0,
        next,
        by,
    }
}

// Begins a run: the rows in order, zeros filled with the numbers after the table's largest value, repeats dropped; fresh numbers go on from there.
pub(crate) fn begin(lines: &[u32], rows: &mut [u32], index: &mut [u16]) -> Counts
    requires { SheetHeld lines.now × records_fit rows.old × Clear index.old 24576 }
    ensures { Begun lines.now rows.old rows.new index.new result }
{
    let first = largest_value(lines) + 1;
    let by = chains::multiplier(lines);
    put_rows(lines, rows, index, by, first)
}
