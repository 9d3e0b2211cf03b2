// Visits of records.
ghost use Rattle.std.specs.Prelude.{◌≡◌, ℕ, suc, ◌+◌, ◌*◌, ◌<◌, ◌≤◌, length, get_or};
ghost use Rattle.carrying.specs.Carrying.{FiresOn};
ghost use Rattle.running.specs.Inner.Held.{OrOver};
ghost use Rattle.running.specs.Inner.Firing.{rule_at, row_no};
ghost use Rattle.running.specs.Inner.Visits.{state_at, Running, Prepared, Left, fired_once, kept_on, kept_rule, kept_rules, keep_in, rules_from, rows_held, Ended};

use crate::firing::{fire, fires};
use crate::pairs::{bucket, find, note};
use crate::records::cell;

// How many records there are, how many pairs are noted, the next number, and the multiplier of the hash.
#[derive(Clone, Copy)]
pub(crate) struct Counts {
    pub rows: usize,
    pub pairs: usize,
    pub next: usize,
    pub by: usize,
}

// Rule `r`, whose pairs are kept, on record `i`, on which it fires. None: there is no room, for the records or for the pairs.
fn fire_once(
    rows: &mut [u32],
    index: &mut [u16],
    table: &[u8; 16384],
    rules: usize,
    fresh: &[u8; 1024],
    r: usize,
    i: usize,
    c: Counts,
) -> Option<Counts>
    requires { Running table.now rows.old index.old rules c × Prepared table.now rules fresh.now × (r < rules) × (i < c.rows)
        × FiresOn (rule_at table.now r) (row_no rows.old i) }
    ensures { OrOver rows_held (λ d. Left table.now rows.old rules c rows.new index.new d
        (fired_once (suc r) (rule_at table.now r) (row_no rows.old i) (state_at table.now rows.old index.old c))) result }
{
    let b = bucket(rows, i, table, rules, r, c.by);
    if find(rows, index, c.pairs, table, rules, r, i, b).is_some() {
        return Some(c);
    }
    if c.pairs == 4096 {
        return None;
    }
    note(index, c.pairs, r, i, b);
    let low = usize::from(fresh[r]);
    let new = usize::from(fresh[256 + r]);
    let n = fire(rows, index, table, rules, r, i, low, c)?;
    Some(Counts {
        rows: n,
        pairs: c.pairs + 1,
        next: c.next + new,
        ..c
    })
}

// Rule `r` on record `i`, on which it fires.
fn fire_rule(
    rows: &mut [u32],
    index: &mut [u16],
    table: &[u8; 16384],
    rules: usize,
    fresh: &[u8; 1024],
    r: usize,
    i: usize,
    c: Counts,
) -> Option<Counts>
    requires { Running table.now rows.old index.old rules c × Prepared table.now rules fresh.now × (r < rules) × (i < c.rows)
        × FiresOn (rule_at table.now r) (row_no rows.old i) }
    ensures { OrOver rows_held (λ d. Left table.now rows.old rules c rows.new index.new d
        (kept_on (keep_in fresh.now r) (suc r) (rule_at table.now r) (row_no rows.old i) (state_at table.now rows.old index.old c))) result }
{
    let keep = usize::from(fresh[512 + r]);
    if keep != 0 {
        return fire_once(rows, index, table, rules, fresh, r, i, c);
    }
    let low = usize::from(fresh[r]);
    let n = fire(rows, index, table, rules, r, i, low, c)?;
    Some(Counts { rows: n, ..c })
}

// Rule `r` on record `i`.
fn visit_rule(
    rows: &mut [u32],
    index: &mut [u16],
    table: &[u8; 16384],
    rules: usize,
    fresh: &[u8; 1024],
    r: usize,
    i: usize,
    c: Counts,
) -> Option<Counts>
    requires { Running table.now rows.old index.old rules c × Prepared table.now rules fresh.now × (r < rules) × (i < c.rows) }
    ensures { OrOver rows_held (λ d. Left table.now rows.old rules c rows.new index.new d
        (kept_rule (keep_in fresh.now r) (suc r) (rule_at table.now r) (row_no rows.old i) (state_at table.now rows.old index.old c))) result }
{
    if fires(rows, i, table, rules, r) {
        return fire_rule(rows, index, table, rules, fresh, r, i, c);
    }
    Some(c)
}

// All rules of its kind on record `i`, in sheet order.
fn visit(
    rows: &mut [u32],
    index: &mut [u16],
    table: &[u8; 16384],
    rules: usize,
    fresh: &[u8; 1024],
    i: usize,
    first: Counts,
) -> Option<Counts>
    requires { Running table.now rows.old index.old rules first × Prepared table.now rules fresh.now × (i < first.rows) × (rules ≤ 256) }
    ensures { OrOver rows_held (λ d. Left table.now rows.old rules first rows.new index.new d
        (kept_rules (keep_in fresh.now) 0 (rules_from table.now 0 rules) (row_no rows.old i) (state_at table.now rows.old index.old first))) result }
{
    let kind = cell(rows, i, 0) / 8;
    let mut c = first;
    for r in 0..rules {
        if usize::from(fresh[768 + r]) == kind {
            c = visit_rule(rows, index, table, rules, fresh, r, i, c)?;
        }
    }
    Some(c)
}

// Visits all records, in their order, until all are visited; None where there are more than 4,096.
pub(crate) fn visit_all(
    rows: &mut [u32],
    index: &mut [u16],
    table: &[u8; 16384],
    rules: usize,
    fresh: &[u8; 1024],
    first: Counts,
) -> Option<Counts>
    requires { Running table.now rows.old index.old rules first × Prepared table.now rules fresh.now × (rules ≤ 256) }
    ensures { OrOver rows_held (λ d. Ended table.now rows.old rules fresh.now first rows.new index.new d
        (state_at table.now rows.old index.old first)) result }
{
    let mut c = first;
    let mut i: usize = 0;
    // The visits add records.
    while i < c.rows {
        c = visit(rows, index, table, rules, fresh, i, c)?;
        i += 1;
    }
    Some(c)
}
