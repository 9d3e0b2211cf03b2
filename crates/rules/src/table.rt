// The rules of a sheet as a table, 64 bytes for each rule:
//   0        the kind of its B line
//   1        how many marks the B line has
//   2 + i    mark i of the B line
//   8 + m    the first place of mark m in the B line, counted from 1; 0 where the mark does not stand there
//   21 + p   1 where the value at place p is carried and p is the first place of its mark; place 0: 1 where the rule carries nothing
//   28       how many H lines it has
//   32 + 8h  H line h: its kind, how many marks it has, its marks
// Places that are not used hold 0.
ghost use Rattle.std.specs.Prelude.{◌≡◌, [], ◌∷◌, ◌+◌, ◌*◌, ◌≤◌, ◌<◌, length, get_or};
ghost use Rattle.rules.specs.Table.{SheetHeld, lines_in, rules_in, table_rules, MarksFit, HeadFits, RuleFits, TableFits};
ghost use Rattle.rules.specs.Inner.Bytes.{marks_at, head_at, heads_at, rule_at, LineIn, LinesIn, head_count, line_byte, Blank, Part, mark_byte, place_byte, PlacesFit, sources_with, HeadsPut, RowPut};

use sheet::{LETTER_B, LETTER_H};

// How many H lines stand at line `n` and after it, up to the first line that is none.
fn heads_at(lines: &[u32], n: usize) -> usize
    requires { SheetHeld lines.now × (n ≤ length (lines_in lines.now)) }
    ensures { result ≡ head_count lines.now n }
{
    for i in n..lines.len() / 8 {
        if lines[8 * i] != LETTER_H {
            return i - n;
        }
    }
    lines.len() / 8 - n
}

// Puts the marks of line `n` at byte `at` of a table that is 0 from there on; answers how many.
fn put_marks(table: &mut [u8], at: usize, lines: &[u32], n: usize) -> usize
    requires { (length table.old ≡ 16384) × (at + 6 ≤ 16384) × LineIn lines.now n × MarksFit (marks_at lines.now n) × Blank table.old at }
    ensures { (result ≡ length (marks_at lines.now n)) × Part table.old at 6 (mark_byte (marks_at lines.now n)) table.new }
{
    for (i, &mark) in lines[8 * n + 2..8 * n + 8].iter().enumerate() {
        if mark == 0 {
            return i;
        }
        table[at + i] = mark as u8;
    }
    6
}

// Puts line `n` at byte `at` of a table that is 0 from there on: its kind, how many marks it has, its marks. Answers how many.
fn put_line(table: &mut [u8], at: usize, lines: &[u32], n: usize) -> usize
    requires { (length table.old ≡ 16384) × (at + 8 ≤ 16384) × LineIn lines.now n × HeadFits (head_at lines.now n) × Blank table.old at }
    ensures { (result ≡ length (marks_at lines.now n)) × Part table.old at 8 (line_byte (get_or lines.now (8 * n + 1) 0) (marks_at lines.now n)) table.new }
{
    let count = put_marks(table, at + 2, lines, n);
    table[at] = lines[8 * n + 1] as u8;
    table[at + 1] = count as u8;
    count
}

// Puts the first places of the marks of line `n`, which has so many, into the rule at byte `at`.
fn put_places(table: &mut [u8], at: usize, lines: &[u32], n: usize, count: usize)
    requires { (length table.old ≡ 16384) × (at + 21 ≤ 16384) × LineIn lines.now n × MarksFit (marks_at lines.now n) × (count ≡ length (marks_at lines.now n)) × Blank table.old (at + 8) }
    ensures { Part table.old (at + 8) 13 (place_byte (marks_at lines.now n)) table.new }
{
    for i in (1..=count).rev() {
        let mark = lines[8 * n + 1 + i] as usize;
        table[at + 8 + mark] = i as u8;
    }
}

// Puts the first place of a mark among the sources of the rule at byte `at`, where the mark has one.
fn put_source(table: &mut [u8], at: usize, mark: usize)
    requires { (length table.old ≡ 16384) × (at + 28 ≤ 16384) × (mark ≤ 12) × PlacesFit table.old at }
    ensures { Part table.old (at + 21) 7 (sources_with table.old at (mark ∷ [])) table.new }
{
    let place = table[at + 8 + mark] as usize;
    if place == 0 {
        return;
    }
    table[at + 21] = 0;
    table[at + 21 + place] = 1;
}

// The same for each mark of line `n`, which has so many.
fn put_sources(table: &mut [u8], at: usize, lines: &[u32], n: usize, count: usize)
    requires { (length table.old ≡ 16384) × (at + 28 ≤ 16384) × LineIn lines.now n × MarksFit (marks_at lines.now n) × (count ≡ length (marks_at lines.now n)) × PlacesFit table.old at }
    ensures { Part table.old (at + 21) 7 (sources_with table.old at (marks_at lines.now n)) table.new }
{
    for &mark in &lines[8 * n + 2..8 * n + 2 + count] {
        put_source(table, at, mark as usize);
    }
}

// Puts the H lines after line `n`, and the sources that their marks show, into the rule at byte `at`.
fn put_heads(table: &mut [u8], at: usize, lines: &[u32], n: usize, heads: usize)
    requires { (length table.old ≡ 16384) × (at + 64 ≤ 16384) × LinesIn lines.now (n + 1) heads × RuleFits (rule_at lines.now n heads) × PlacesFit table.old at × Blank table.old (at + 32) }
    ensures { HeadsPut table.old at (heads_at lines.now (n + 1) heads) table.new }
{
    for h in 0..heads {
        let line = n + 1 + h;
        let count = put_line(table, at + 32 + 8 * h, lines, line);
        put_sources(table, at, lines, line, count);
    }
}

// Puts the rule at line `n` at row `r` of a table that is 0 from there on. Place 0 is a source until a mark is carried.
fn put_rule(table: &mut [u8], r: usize, lines: &[u32], n: usize, heads: usize)
    requires { (length table.old ≡ 16384) × (r < 256) × LinesIn lines.now (n + 1) heads × RuleFits (rule_at lines.now n heads) × Blank table.old (64 * r) }
    ensures { RowPut table.old r (rule_at lines.now n heads) table.new × Blank table.new (64 * r + 64) }
{
    let at = 64 * r;
    let count = put_line(table, at, lines, n);
    put_places(table, at, lines, n, count);
    table[at + 21] = 1;
    table[at + 28] = heads as u8;
    put_heads(table, at, lines, n, heads);
}

// Puts the rules of a sheet's lent lines into a table of zeros; answers how many.
fn put_rules(lines: &[u32], table: &mut [u8]) -> usize
    requires { SheetHeld lines.now × (length table.old ≡ 16384) × Blank table.old 0 }
    ensures { TableFits table.new result × (table_rules table.new result ≡ rules_in lines.now) }
{
    let mut count: usize = 0;
    for n in 0..lines.len() / 8 {
        if lines[8 * n] == LETTER_B {
            let heads = heads_at(lines, n + 1);
            put_rule(table, count, lines, n, heads);
            count += 1;
        }
    }
    count
}

// Makes every byte 0.
fn clear(table: &mut [u8])
    ensures { (length table.new ≡ length table.old) × Blank table.new 0 }
{
    table.fill(0);
}

// Makes a table of the rules of a sheet's lent lines, whatever the bytes were; answers how many.
pub(crate) fn fill(lines: &[u32], table: &mut [u8]) -> usize
    requires { SheetHeld lines.now × (length table.old ≡ 16384) }
    ensures { TableFits table.new result × (table_rules table.new result ≡ rules_in lines.now) }
{
    clear(table);
    put_rules(lines, table)
}
