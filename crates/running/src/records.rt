// The records of a run, seven numbers each: 8 × its kind + how many numbers it has, then its numbers, 0 in the unused places. They are looked up by a hash.
// The index has six sections of 4,096 numbers: where the chains of the records begin, where each record leads; the same for the pairs;
// the rule of each pair, and the record on which it has fired. A place in a chain counts from 1; 0 ends it.
ghost use Rattle.std.specs.Prelude.{◌≡◌, ℕ, ◌+◌, ◌*◌, ◌<◌, ◌≤◌, length, get_or, set};
ghost use Rattle.patterns.specs.Pattern.{add as addTo};
ghost use Rattle.carrying.specs.Carrying.{Row-discrete};
ghost use Rattle.rules.specs.Inner.Bytes.{Part};
ghost use Rattle.rules.specs.Inner.Tests.{Decides};
ghost use Rattle.running.specs.Inner.Chains.{bucket_of, FoundIn};
ghost use Rattle.running.specs.Inner.Held.{records_fit, row_at, unpacked, PackedRow, rows_at, Stored, Grown, OrOver};

use crate::chain::find_in;
use crate::hash::mix;

// Number `k` of the seven of record `i`.
pub(crate) fn cell(rows: &[u32], i: usize, k: usize) -> usize
    requires { (i < 4096) × (k < 7) × (7 * i + 7 ≤ length rows.now) }
    ensures { (result ≡ get_or (row_at rows.now i) k 0) × (result < 4294967296) }
{
    rows[7 * i + k] as usize
}

// The bucket of a row.
fn bucket(by: usize, row: &[u32]) -> usize
    requires { by < 2147483648 }
    ensures { (result ≡ bucket_of by row.now) × (result < 4096) }
{
    let mut h: usize = 0;
    for &x in row {
        h = mix(by, h, x as usize);
    }
    h / 1048576
}

// Whether record `i` is this row.
fn is_row(rows: &[u32], i: usize, row: &[u32]) -> bool
    requires { (length row.now ≡ 7) × (i < 4096) × (7 * i + 7 ≤ length rows.now) }
    ensures { Decides (row_at rows.now i ≡ row.now) result }
{
    &rows[7 * i..7 * i + 7] == row
}

// The place of a row in bucket `b`, which is its own; None where it is not there.
fn find(
    rows: &[u32],
    index: &[u16],
    by: usize,
    count: usize,
    row: &[u32],
    b: usize,
) -> Option<usize>
    requires { Stored rows.now index.now by count × (length row.now ≡ 7) × (b ≡ bucket_of by row.now) × (b < 4096) }
    ensures { FoundIn (λ j. row_at rows.now j ≡ row.now) count result }
{
    find_in(
        index,
        0,
        b,
        count,
        |i|
            requires { (length row.now ≡ 7) × (i < 4096) × (7 * i + 7 ≤ length rows.now) }
            ensures { Decides (row_at rows.entry.now i ≡ row.entry.now) result }
        { is_row(rows, i, row) },
    )
}

// One place more, `count`, in bucket `b` of the chains whose beginnings are section `c`.
pub(crate) fn push(index: &mut [u16], c: usize, count: usize, b: usize)
    requires { (length index.old ≡ 24576) × (c ≤ 2) × (count < 4096) × (b < 4096) }
    ensures { index.new ≡ set (set index.old (4096 * c + 4096 + count) (get_or index.old (4096 * c + b) 0)) (4096 * c + b) (count + 1) }
{
    index[4096 * c + 4096 + count] = index[4096 * c + b];
    index[4096 * c + b] = (count + 1) as u16;
}

// Puts a row at a place.
fn put(rows: &mut [u32], i: usize, row: &[u32])
    requires { records_fit rows.old × (i < 4096) × (length row.now ≡ 7) }
    ensures { Part rows.old (7 * i) 7 (λ (k : ℕ). get_or row.now k 0) rows.new }
{
    rows[7 * i..7 * i + 7].copy_from_slice(row);
}

// Adds a record unless it is there. Answers how many there are then; None where there is no room.
pub(crate) fn add(
    rows: &mut [u32],
    index: &mut [u16],
    by: usize,
    count: usize,
    row: &[u32],
) -> Option<usize>
    requires { Stored rows.old index.old by count × (length row.now ≡ 7) × PackedRow row.now }
    ensures { OrOver (λ n. n) (λ n. Grown rows.old index.old by count rows.new index.new n
        (addTo Row-discrete (unpacked row.now) (rows_at rows.old count))) result }
{
    let b = bucket(by, row);
    if find(rows, index, by, count, row, b).is_some() {
        return Some(count);
    }
    if count == 4096 {
        return None;
    }
    put(rows, count, row);
    push(index, 0, count, b);
    Some(count + 1)
}
