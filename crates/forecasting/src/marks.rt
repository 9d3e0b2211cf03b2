// The marks of a rule: how many are fresh, and how many are carried. What is met of each mark stands at its place, from 0 to 12.
ghost use Rattle.std.specs.Prelude.{◌≡◌, [], ◌+◌, ◌*◌, ◌≤◌, ◌<◌, ◌==◌, length, get_or, position};
ghost use Rattle.sheet.specs.Line.{B};
ghost use Rattle.rules.specs.Table.{SheetHeld, MarksFit};
ghost use Rattle.rules.specs.Inner.Bytes.{marks_at, LineIn};
ghost use Rattle.forecasting.specs.Inner.Marks.{Counted, HeadsCounted, MarkMet};
ghost use Rattle.forecasting.specs.Inner.Terms.{MarksCounted};

use sheet::LETTER_H;

// Where a mark has been met: in neither line, in the B line, or in an H line, where it was counted.
#[derive(Clone, Copy)]
enum Mark {
    Nowhere,
    InBody,
    InHead,
}

// How many marks of a rule are fresh, and how many are carried.
#[derive(Clone, Copy)]
pub(crate) struct MarkCounts {
    pub fresh: usize,
    pub carried: usize,
}

// The counts once a mark that was met there is met in an H line.
fn with_mark(counts: MarkCounts, mark: Mark) -> MarkCounts
    requires { (counts.fresh ≤ 12) × (counts.carried ≤ 12) }
    ensures { MarkMet mark counts result }
{
    match mark {
        Mark::Nowhere => MarkCounts {
            fresh: counts.fresh + 1,
            ..counts
        },
        Mark::InBody => MarkCounts {
            carried: counts.carried + 1,
            ..counts
        },
        Mark::InHead => counts,
    }
}

// Where the first 0 stands.
fn first_zero(numbers: &[u32]) -> Option<usize>
    ensures { result ≡ position (λ m. m == 0) numbers.now }
{
    numbers.iter().position(|m| *m == 0)
}

// The marks of line `n`: its numbers up to the first 0.
fn marks_of(lines: &[u32], n: usize) -> &[u32]
    requires { LineIn lines.now n }
    ensures { result.now ≡ marks_at lines.now n }
{
    let numbers = &lines[8 * n + 2..8 * n + 8];
    match first_zero(numbers) {
        Some(count) => &numbers[..count],
        None => numbers,
    }
}

// The marks before any H line, by B line `n`.
fn body_marks(lines: &[u32], n: usize) -> [Mark; 13]
    requires { LineIn lines.now n × MarksFit (marks_at lines.now n) }
    ensures { Counted (marks_at lines.now n) [] result 0 0 }
{
    let mut met = [Mark::Nowhere; 13];
    let marks = marks_of(lines, n);
    for mark in marks {
        met[*mark as usize] = Mark::InBody;
    }
    met
}

// Counts the marks of H line `h`, from 0, of the rule whose B line is line `n`.
fn count_head(
    lines: &[u32],
    n: usize,
    h: usize,
    met: &mut [Mark; 13],
    before: MarkCounts,
) -> MarkCounts
    requires { LineIn lines.now (n + 1 + h) × MarksFit (marks_at lines.now (n + 1 + h)) × HeadsCounted lines.now n h met.old before [] }
    ensures { HeadsCounted lines.now n (h + 1) met.new result [] }
{
    let mut counts = before;
    let marks = marks_of(lines, n + 1 + h);
    for mark in marks {
        let place = *mark as usize;
        counts = with_mark(counts, met[place]);
        met[place] = Mark::InHead;
    }
    counts
}

// The marks of the rule whose B line is line `n`.
pub(crate) fn rule_marks(lines: &[u32], n: usize) -> MarkCounts
    requires { SheetHeld lines.now × (8 * n < length lines.now) × (get_or lines.now (8 * n) 0 ≡ B) }
    ensures { MarksCounted lines.now n result }
{
    let mut met = body_marks(lines, n);
    let mut counts = MarkCounts {
        fresh: 0,
        carried: 0,
    };
    for h in 0..lines.len() / 8 - (n + 1) {
        if lines[8 * (n + 1 + h)] != LETTER_H {
            return counts;
        }
        counts = count_head(lines, n, h, &mut met, counts);
    }
    counts
}
