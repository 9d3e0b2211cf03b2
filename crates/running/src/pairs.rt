// The pairs of a rule and its carried values that have fired. They are looked up by a hash, as the records are.
ghost use Rattle.std.specs.Prelude.{◌≡◌, cond, ℕ, ◌+◌, ◌-◌, ◌*◌, ◌<◌, ◌≤◌, eqb, length, get_or, set};
ghost use Rattle.rules.specs.Table.{TableFits};
ghost use Rattle.rules.specs.Inner.Tests.{Decides};
ghost use Rattle.running.specs.Inner.Chains.{mixed, FoundIn};
ghost use Rattle.running.specs.Inner.Held.{row_at, Stored};
ghost use Rattle.running.specs.Inner.Firing.{rule_at, RecordIn};
ghost use Rattle.running.specs.Inner.Pairs.{pair_bucket, SameCarried, IsPair, RecordsIn, InBucket};

use crate::chain::find_in;
use crate::firing::rule_byte;
use crate::hash::mix;
use crate::records::{cell, push};

fn mix_where(source: usize, by: usize, h: usize, x: usize) -> usize
    requires { (by < 2147483648) × (h < 4294967296) × (x < 4294967296) }
    ensures { (result ≡ cond (eqb source 1) (mixed by h x) h) × (result < 4294967296) }
{
    if source == 1 {
        return mix(by, h, x);
    }
    h
}

// The bucket of rule `r` with its carried values in record `i`.
pub(crate) fn bucket(
    rows: &[u32],
    i: usize,
    table: &[u8; 16384],
    rules: usize,
    r: usize,
    by: usize,
) -> usize
    requires { RecordIn rows.now i × TableFits table.now rules × (r < rules) × (by < 2147483648) }
    ensures { (result ≡ pair_bucket by (rule_at table.now r) r (row_at rows.now i)) × (result < 4096) }
{
    let mut h = mix(by, 1, r);
    for p in 1..7 {
        let source = rule_byte(table, r, 21 + p);
        h = mix_where(source, by, h, cell(rows, i, p));
    }
    h / 1048576
}

fn differ(source: usize, x: usize, y: usize) -> bool
    ensures { Decides ((source ≡ 1) × (x ≡ y → ⊥)) result }
{
    source == 1 && x != y
}

// Whether the carried values of rule `r` are the same in two records.
fn same(rows: &[u32], i: usize, j: usize, table: &[u8; 16384], rules: usize, r: usize) -> bool
    requires { RecordIn rows.now i × RecordIn rows.now j × TableFits table.now rules × (r < rules) }
    ensures { Decides (SameCarried (rule_at table.now r) (row_at rows.now i) (row_at rows.now j)) result }
{
    for p in 1..7 {
        let source = rule_byte(table, r, 21 + p);
        if differ(source, cell(rows, i, p), cell(rows, j, p)) {
            return false;
        }
    }
    true
}

// Whether pair `j` is rule `r` with the carried values of record `i`.
fn is_pair(
    rows: &[u32],
    index: &[u16],
    j: usize,
    table: &[u8; 16384],
    rules: usize,
    r: usize,
    i: usize,
) -> bool
    requires { RecordIn rows.now i × (j < 4096) × (length index.now ≡ 24576) × RecordIn rows.now (get_or index.now (20480 + j) 0) × TableFits table.now rules × (r < rules) }
    ensures { Decides (IsPair table.now rows.now index.now r i j) result }
{
    if usize::from(index[16384 + j]) != r {
        return false;
    }
    let on = usize::from(index[20480 + j]);
    same(rows, on, i, table, rules, r)
}

// The place of the pair of rule `r` and the carried values of record `i`, whose bucket is `b`; None where there is none.
pub(crate) fn find(
    rows: &[u32],
    index: &[u16],
    count: usize,
    table: &[u8; 16384],
    rules: usize,
    r: usize,
    i: usize,
    b: usize,
) -> Option<usize>
    requires { RecordIn rows.now i × RecordsIn rows.now index.now count × TableFits table.now rules × (r < rules) × (b < 4096)
        × InBucket table.now rows.now index.now rules count r i b }
    ensures { FoundIn (IsPair table.now rows.now index.now r i) count result }
{
    find_in(
        index,
        2,
        b,
        count,
        |j|
            requires { RecordIn rows.now i × (j < 4096) × (length index.now ≡ 24576) × RecordIn rows.now (get_or index.now (20480 + j) 0) × TableFits table.now rules × (r < rules) }
            ensures { Decides (IsPair table.entry.now rows.entry.now index.entry.now r i j) result }
        { is_pair(rows, index, j, table, rules, r, i) },
    )
}

// Notes a pair at place `count`.
pub(crate) fn note(index: &mut [u16], count: usize, r: usize, i: usize, b: usize)
    requires { (length index.old ≡ 24576) × (count < 4096) × (r < 256) × (i < 4096) × (b < 4096) }
    ensures { index.new ≡ set (set (set (set index.old (16384 + count) r) (20480 + count) i) (12288 + count) (get_or (set (set index.old (16384 + count) r) (20480 + count) i) (8192 + b) 0)) (8192 + b) (count + 1) }
{
    index[16384 + count] = r as u16;
    index[20480 + count] = i as u16;
    push(index, 2, count, b);
}
