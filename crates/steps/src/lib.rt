// The steps of a judged sheet as records: each is filled from the five numbers of a step.
#![tactic(auto)]

ghost use Rattle.std.specs.Prelude.{◌≡◌, ℕ, ◌+◌, ◌*◌, ◌≤◌, length};
ghost use Rattle.steps.specs.Showing.{record_at, shown_at, count_of, showing};

// A step: rule, H line within it (1 to 4), from field, to field, fresh (1) or carried (0).
#[derive(Clone, Copy, Default)]
pub struct StepRecord {
    pub rule: u16,
    pub head: u16,
    pub from: u16,
    pub to: u16,
    pub fresh: u16,
}

// The record of step `i`, counted from 0.
fn step_at(numbers: &[u16], i: usize) -> StepRecord
    requires { i * 5 + 5 ≤ length numbers.now }
    ensures { result ≡ record_at numbers.now i }
{
    let k = i * 5;
    StepRecord {
        rule: numbers[k],
        head: numbers[k + 1],
        from: numbers[k + 2],
        to: numbers[k + 3],
        fresh: numbers[k + 4],
    }
}

// Fills the first `n` records.
fn fill(records: &mut [StepRecord], numbers: &[u16], n: usize)
    requires { (n ≤ length records.old) × (n * 5 ≤ length numbers.now) }
    ensures { records.new ≡ showing numbers.now records.old n }
{
    for (i, record) in records[..n].iter_mut().enumerate() {
        *record = step_at(numbers, i);
    }
}

// How many of `n` steps are shown: `n`, or 0 where the records or the numbers are too few.
fn count(records: usize, numbers: usize, n: usize) -> usize
    ensures { result ≡ count_of records numbers n }
{
    if n <= records && n <= numbers / 5 {
        n
    } else {
        0
    }
}

// Shows `n` steps, or none where the records or the numbers are too few, and answers how many. The rest of the records is as it was.
pub fn show(records: &mut [StepRecord], numbers: &[u16], n: usize) -> usize
    ensures { (result ≡ count_of (length records.old) (length numbers.now) n)
        × (records.new ≡ showing numbers.now records.old result) }
{
    let m = count(records.len(), numbers.len(), n);
    fill(records, numbers, m);
    m
}

// The first step, shown in a record of its own; all zeros where the numbers are fewer than five.
fn first_shown(numbers: &[u16]) -> StepRecord
    ensures { result ≡ shown_at numbers.now 0 }
{
    let mut records = [StepRecord::default()];
    show(&mut records, numbers, 1);
    records[0]
}

// Step `i`, counted from 0, as it is shown; all zeros where the numbers hold none.
pub fn shown_at(numbers: &[u16], i: usize) -> StepRecord
    ensures { result ≡ shown_at numbers.now i }
{
    if i < numbers.len() / 5 {
        first_shown(&numbers[i * 5..])
    } else {
        StepRecord::default()
    }
}
