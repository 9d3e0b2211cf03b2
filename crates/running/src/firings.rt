// How many firings there were: the different pairs of a rule and its carried values, counted rule by rule over all records. Those of all rules together, up to a million, have no room at once; those of one rule have.
ghost use Rattle.std.specs.Prelude.{◌≡◌, [], suc, ◌+◌, ◌≤◌, ◌<◌, length};
ghost use Rattle.patterns.specs.Pattern.{add_all};
ghost use Rattle.rules.specs.Table.{TableFits};
ghost use Rattle.carrying.specs.Carrying.{Pair-discrete};
ghost use Rattle.carrying.specs.Inner.Keys.{pairs_on, firings_on};
ghost use Rattle.running.specs.Inner.Held.{rows_at, Stored};
ghost use Rattle.running.specs.Inner.Firing.{rule_at};
ghost use Rattle.running.specs.Inner.Visits.{rules_from};
ghost use Rattle.running.specs.Inner.Counted.{NoPairs};

use crate::clear;
use crate::firing::fires;
use crate::pairs::{bucket, find, note};

// How many different carried values rule `r` has on the records on which it fires. No pair is noted before.
fn firings_of(
    rows: &[u32],
    index: &mut [u16],
    table: &[u8; 16384],
    rules: usize,
    r: usize,
    count: usize,
    by: usize,
) -> usize
    requires { Stored rows.now index.old by count × NoPairs index.old × TableFits table.now rules × (r < rules) }
    ensures { (result ≡ length (add_all Pair-discrete (pairs_on (suc r) (rule_at table.now r) (rows_at rows.now count)) [])) × (result ≤ 4096)
        × Stored rows.now index.new by count }
{
    let mut n: usize = 0;
    for i in 0..count {
        if fires(rows, i, table, rules, r) {
            let b = bucket(rows, i, table, rules, r, by);
            if find(rows, index, n, table, rules, r, i, b).is_none() {
                note(index, n, r, i, b);
                n += 1;
            }
        }
    }
    n
}

// How many firings there were, of all rules. Where the chains of the pairs begin is cleared for each.
pub(crate) fn firings(
    rows: &[u32],
    index: &mut [u16],
    table: &[u8; 16384],
    rules: usize,
    count: usize,
    by: usize,
) -> usize
    requires { Stored rows.now index.old by count × TableFits table.now rules }
    ensures { result ≡ firings_on 1 (rules_from table.now 0 rules) (rows_at rows.now count) }
{
    let mut n: usize = 0;
    for r in 0..rules {
        clear(index, 8192, 4096);
        n += firings_of(rows, index, table, rules, r, count, by);
    }
    n
}
