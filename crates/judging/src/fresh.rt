// Which shapes wait at first. All generations are 0, so a carried link raises nothing: only the shapes wait from which a fresh link may
// lead, those whose kind has a rule with a fresh mark. A fresh mark stands in an H line and has no place in the rule's B line.
ghost use Rattle.std.specs.Prelude.{◌≡◌, ℕ, ◌≤◌, ◌<◌, length, get_or};
ghost use Rattle.rules.specs.Table.{row_bytes, BytesFit, TableFits};
ghost use Rattle.rules.specs.Inner.Tests.{Decides};
ghost use Rattle.judging.specs.Inner.Passes.{LineBytes};
ghost use Rattle.judging.specs.Inner.Fresh.{HeadFresh, RuleFresh, FreshKinds, FirstWaiting};

use crate::shape::rule_byte;

// Whether H line `h` of rule `r` has a fresh mark.
fn head_fresh(table: &[u8; 16384], r: usize, h: usize) -> bool
    requires { (length table.now ≡ 16384) × (r < 256) × LineBytes (row_bytes table.now r) h }
    ensures { Decides (HeadFresh (row_bytes table.now r) h) result }
{
    let width = rule_byte(table, r, 33 + 8 * h);
    for j in 0..width {
        let mark = rule_byte(table, r, 34 + 8 * h + j);
        if rule_byte(table, r, 8 + mark) == 0 {
            return true;
        }
    }
    false
}

// Whether rule `r` has a fresh mark.
fn rule_fresh(table: &[u8; 16384], r: usize) -> bool
    requires { (length table.now ≡ 16384) × (r < 256) × BytesFit (row_bytes table.now r) }
    ensures { Decides (RuleFresh (row_bytes table.now r)) result }
{
    let heads = rule_byte(table, r, 28);
    // A for: with `any` the proof didn't close, at the goals any-requires-clause-callable and returns.
    for h in 0..heads {
        if head_fresh(table, r, h) {
            return true;
        }
    }
    false
}

// Of each kind, whether it has a rule with a fresh mark.
fn fresh_kinds(table: &[u8; 16384], rules: usize) -> [bool; 65]
    requires { TableFits table.now rules }
    ensures { FreshKinds table.now rules result }
{
    let mut kinds = [false; 65];
    for r in 0..rules {
        if rule_fresh(table, r) {
            let kind = rule_byte(table, r, 0);
            kinds[kind] = true;
        }
    }
    kinds
}

// Of each of the first `count` shapes, whether its kind has a rule with a fresh mark.
pub(crate) fn first_waiting(
    table: &[u8; 16384],
    rules: usize,
    shapes: &[u32; 512],
    count: usize,
) -> [bool; 512]
    requires { TableFits table.now rules × (length shapes.now ≡ 512) × (count ≤ 512) × ((s : ℕ) → s < count → get_or shapes.now s 0 < 17792) }
    ensures { FirstWaiting table.now rules shapes.now count result }
{
    let kinds = fresh_kinds(table, rules);
    let mut waiting = [false; 512];
    for (s, &shape) in shapes[..count].iter().enumerate() {
        let kind = shape as usize / 278 + 1;
        waiting[s] = kinds[kind];
    }
    waiting
}
