// A rule fired on a record.
ghost use Rattle.std.specs.Prelude.{◌≡◌, ℕ, ◌+◌, ◌-◌, ◌*◌, ◌<◌, ◌≤◌, length, get_or};
ghost use Rattle.rules.specs.Table.{TableFits, row_bytes, first_place};
ghost use Rattle.rules.specs.Inner.Tests.{Decides};
ghost use Rattle.carrying.specs.Carrying.{FiresOn, row_made};
ghost use Rattle.running.specs.Inner.Held.{packed, PackedRow, row_at, rows_at, Stored, Grown, OrOver};
ghost use Rattle.running.specs.Inner.Firing.{rule_at, head_no, row_no, RecordIn, Ready, value_from, with_made};

use crate::records::{add, cell};
use crate::visits::Counts;

// Byte `i` of rule `r`.
pub(crate) fn rule_byte(table: &[u8; 16384], r: usize, i: usize) -> usize
    requires { (length table.now ≡ 16384) × (r < 256) × (i < 64) }
    ensures { (result ≡ get_or (row_bytes table.now r) i 0) × (result < 256) }
{
    usize::from(table[64 * r + i])
}

// Whether rule `r` fires on record `i`.
pub(crate) fn fires(rows: &[u32], i: usize, table: &[u8; 16384], rules: usize, r: usize) -> bool
    requires { RecordIn rows.now i × TableFits table.now rules × (r < rules) }
    ensures { Decides (FiresOn (rule_at table.now r) (row_no rows.now i)) result }
{
    let width = rule_byte(table, r, 1);
    if rule_byte(table, r, 0) * 8 + width != cell(rows, i, 0) {
        return false;
    }
    for k in 0..width {
        let mark = rule_byte(table, r, 2 + k);
        let place = rule_byte(table, r, 8 + mark);
        if cell(rows, i, 1 + k) != cell(rows, i, place) {
            return false;
        }
    }
    true
}

// The number that a mark of an H line gets: that of its first place in the B line, or a fresh one.
fn number(
    rows: &[u32],
    i: usize,
    table: &[u8; 16384],
    rules: usize,
    r: usize,
    mark: usize,
    low: usize,
    next: usize,
) -> u32
    requires { RecordIn rows.now i × TableFits table.now rules × (r < rules) × (mark ≤ 12) × (next ≤ 4294960000) × (first_place mark (rule_at table.now r).marks ≡ 0 → low < mark) }
    ensures { result ≡ value_from (row_at rows.now i) (next + (mark - low - 1)) (first_place mark (rule_at table.now r).marks) }
{
    let place = rule_byte(table, r, 8 + mark);
    if place == 0 {
        return (next + (mark - low - 1)) as u32;
    }
    rows[7 * i + place]
}

// The record that H line `h` makes.
fn made(
    rows: &[u32],
    i: usize,
    table: &[u8; 16384],
    rules: usize,
    r: usize,
    h: usize,
    low: usize,
    next: usize,
) -> [u32; 7]
    requires { RecordIn rows.now i × Ready table.now rules r low × (h < get_or (row_bytes table.now r) 28 0) × (next ≤ 4294960000) × FiresOn (rule_at table.now r) (row_no rows.now i) }
    ensures { result ≡ packed (row_made next (rule_at table.now r) (row_no rows.now i) (head_no (row_bytes table.now r) h)) }
{
    let at = 32 + 8 * h;
    let width = rule_byte(table, r, at + 1);
    let mut row = [0u32; 7];
    row[0] = (rule_byte(table, r, at) * 8 + width) as u32;
    for k in 0..width {
        let mark = rule_byte(table, r, at + 2 + k);
        row[1 + k] = number(rows, i, table, rules, r, mark, low, next);
    }
    row
}

// Adds what the H lines make of record `i`, in their order. Answers how many records there are then; None where there is no room.
pub(crate) fn fire(
    rows: &mut [u32],
    index: &mut [u16],
    table: &[u8; 16384],
    rules: usize,
    r: usize,
    i: usize,
    low: usize,
    c: Counts,
) -> Option<usize>
    requires { Stored rows.old index.old c.by c.rows × (i < c.rows) × Ready table.now rules r low × (c.next ≤ 4294960000) × FiresOn (rule_at table.now r) (row_no rows.old i) }
    ensures { OrOver (λ n. n) (λ n. Grown rows.old index.old c.by c.rows rows.new index.new n
        (with_made c.next (rule_at table.now r) (row_no rows.old i) (rows_at rows.old c.rows))) result }
{
    let heads = rule_byte(table, r, 28);
    let mut n = c.rows;
    for h in 0..heads {
        let row = made(rows, i, table, rules, r, h, low, c.next);
        n = add(rows, index, c.by, n, &row)?;
    }
    Some(n)
}
