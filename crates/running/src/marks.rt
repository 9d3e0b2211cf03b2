// The marks of each rule, as firing it uses them.
ghost use Rattle.std.specs.Prelude.{◌≡◌, ◌+◌, ◌≤◌, ◌<◌, max, length, get_or, take, drop};
ghost use Rattle.sheet.specs.Sheet.{top_mark};
ghost use Rattle.chase.specs.Rules.{marks_of};
ghost use Rattle.rules.specs.Table.{TableFits, row_bytes};
ghost use Rattle.running.specs.Inner.Firing.{rule_at};
ghost use Rattle.running.specs.Inner.Visits.{MarksRight, Prepared, Keeping};

use crate::firing::rule_byte;

// The largest of `m` and so many marks of rule `r`, from byte `at` on.
fn top(table: &[u8; 16384], r: usize, at: usize, count: usize, m: usize) -> usize
    requires { (length table.now ≡ 16384) × (r < 256) × (at + count ≤ 64) }
    ensures { result ≡ top_mark m (take count (drop at (row_bytes table.now r))) }
{
    let from = 64 * r + at;
    let mut t = m;
    for &mark in &table[from..from + count] {
        t = t.max(usize::from(mark));
    }
    t
}

// The largest of `m` and the marks of all H lines of rule `r`.
fn top_heads(table: &[u8; 16384], rules: usize, r: usize, m: usize) -> usize
    requires { TableFits table.now rules × (r < rules) }
    ensures { result ≡ top_mark m (marks_of (rule_at table.now r).heads) }
{
    let heads = rule_byte(table, r, 28);
    let mut t = m;
    for h in 0..heads {
        let at = 32 + 8 * h;
        let count = rule_byte(table, r, at + 1);
        t = top(table, r, at + 2, count, t);
    }
    t
}

// For each rule the largest mark of its B line; 256 places further how many fresh marks it has; 512 further whether its pairs are kept: where it has fresh marks, and for `least` 1 always; 768 further its kind.
pub(crate) fn fresh_marks(table: &[u8; 16384], rules: usize, least: usize) -> [u8; 1024]
    requires { TableFits table.now rules × MarksRight table.now rules × (least ≤ 1) }
    ensures { Prepared table.now rules result × Keeping table.now rules least result }
{
    let mut fresh = [0u8; 1024];
    for r in 0..rules {
        let low = top(table, r, 2, rule_byte(table, r, 1), 0);
        let new = top_heads(table, rules, r, low) - low;
        fresh[r] = low as u8;
        fresh[256 + r] = new as u8;
        fresh[512 + r] = least.max(new) as u8;
        fresh[768 + r] = rule_byte(table, r, 0) as u8;
    }
    fresh
}
