// What the programs print: lines in the sheet's column form, and the whole output of the judging program.
#![tactic(auto)]

ghost use Rattle.std.specs.Prelude.{◌≡◌, true, List, [], ◌∷◌, ◌+◌, ◌-◌, ◌*◌, ◌≤◌, ltb, nat_le, length, take, drop};
ghost use Rattle.std.specs.List.{list_all};
ghost use Rattle.columns.specs.Column.{put};
ghost use Rattle.patterns.specs.Outcome.{good};
ghost use Rattle.sheet.specs.Line.{Line, lent_of, in_range};
ghost use Rattle.sheet.specs.Read.{read_of};
ghost use Rattle.chase.specs.Judge.{judged};
ghost use Rattle.judging.specs.Answer.{verdict_of};
ghost use Rattle.report.specs.Lines.{line_text, PutMeets};
ghost use Rattle.report.specs.Report.{letter_n, verdict_numbers, step_lines, refusal_text, judgement_text, Filled, line_limit, TakesLines, TellsLines, TextPrinted, report_says, Judges, ReportMeets};
ghost use Rattle.report.specs.Inner.Promises.{SheetLent, LinesRead};

use judging::{Figures, Verdict};
use sheet::RefusalNumbers;

// Why a line is not put.
#[derive(Clone, Copy)]
pub enum PutRefusal {
    // A number is over 99,999,999.
    NumberTooLarge,
    // The line does not fit.
    TextShort,
}

// Puts a line where there is room for it.
fn fill_line(letter: u8, numbers: &[usize], text: &mut [u8], at: usize)
    requires { (in_range numbers.now ≡ true) × (at + 9 * length numbers.now + 2 ≤ length text.old) }
    ensures { text.new ≡ put text.old at (line_text letter numbers.now) }
{
    text[at] = letter;
    for (c, &number) in numbers.iter().enumerate() {
        columns::put(text, at + 9 * c + 1, number as u32);
    }
    text[at + 9 * numbers.len() + 1] = 10;
}

// Whether all numbers have columns.
fn in_range(numbers: &[usize]) -> bool
    ensures { result ≡ list_all (λ n. nat_le n 99999999) numbers.now }
{
    numbers.iter().all(|&number| number <= 99999999)
}

// Whether a line with so many columns does not fit after the first `at` of so many bytes.
fn is_short(size: usize, at: usize, count: usize) -> bool
    ensures { result ≡ ltb (size - at) (9 * count + 2) }
{
    let room = size.saturating_sub(at);
    room < 2 || (room - 2) / 9 < count
}

// Puts a line into lent text at `at`: its letter, the numbers in columns, byte 10. Says how many bytes were put: these change and nothing else does; a refusal changes nothing.
pub fn put_line(
    letter: u8,
    numbers: &[usize],
    text: &mut [u8],
    at: usize,
) -> Result<usize, PutRefusal>
    ensures { PutMeets letter numbers.now text.old at result text.new }
{
    if !in_range(numbers) {
        return Err(PutRefusal::NumberTooLarge);
    }
    if is_short(text.len(), at, numbers.len()) {
        return Err(PutRefusal::TextShort);
    }
    fill_line(letter, numbers, text, at);
    Ok(9 * numbers.len() + 2)
}

// Puts a refusal at the front of lent text: N, its number and line. It has 20 bytes.
pub fn put_refusal(number: usize, line: usize, text: &mut [u8]) -> Result<usize, PutRefusal>
    ensures { PutMeets letter_n (number ∷ line ∷ []) text.old 0 result text.new }
{
    let numbers = [number, line];
    put_line(b'N', &numbers, text, 0)
}

// The five numbers of a step.
fn numbers_of(step: &[u16; 5]) -> [usize; 5]
    ensures { (result ≡ step.now) × (in_range result ≡ true) }
{
    step.map(usize::from)
}

// Puts the lines of the first `count` steps after the V line, which has 74 bytes.
fn fill_steps(steps: &[u16], count: usize, text: &mut [u8])
    requires { (5 * count ≤ length steps.now) × (74 + 47 * count ≤ length text.old) }
    ensures { text.new ≡ put text.old 74 (step_lines count steps.now) }
{
    for (k, step) in steps.as_chunks::<5>().0[..count].iter().enumerate() {
        let numbers = numbers_of(step);
        fill_line(b'S', &numbers, text, 74 + 47 * k);
    }
}

// The numbers of a V line.
fn verdict_numbers(verdict: usize, f: Figures) -> [usize; 8]
    ensures { result ≡ verdict_numbers (verdict_of verdict f) }
{
    [
        verdict, f.deepest, f.shapes, f.fired, f.share, f.row, f.trail, f.turns,
    ]
}

// Puts a verdict, 1 where the sheet settles and 2 where it is endless, and its steps; says how many bytes they have.
fn fill_verdict(verdict: usize, f: Figures, steps: &[u16], text: &mut [u8]) -> usize
    requires { (in_range (verdict_numbers (verdict_of verdict f)) ≡ true) × (f.trail + f.turns ≤ 4096) × (20480 ≤ length steps.now) × (192586 ≤ length text.old) }
    ensures { Filled (λ p. p ≡ judgement_text (judged (verdict_of verdict f)) steps.now) text.old result text.new }
{
    let count = f.trail + f.turns;
    let numbers = verdict_numbers(verdict, f);
    fill_line(b'V', &numbers, text, 0);
    fill_steps(steps, count, text);
    74 + 47 * count
}

// Judges the lines of a sheet and puts what is to be printed of them; says how many bytes it has.
fn report_lines(lines: &[u32], text: &mut [u8]) -> usize
    requires { SheetLent lines.now × (192586 ≤ length text.old) }
    ensures { Filled (Judges lines.now) text.old result text.new }
{
    let mut steps = [0; 20480];
    match judging::judge(lines, &mut steps) {
        Ok(Verdict::Settles(f)) => fill_verdict(1, f, &steps, text),
        Ok(Verdict::Endless(f)) => fill_verdict(2, f, &steps, text),
        Err(refusal) => {
            let said = judging::refusal_numbers(refusal);
            put_refusal(said.number, said.line, text).unwrap()
        }
    }
}

// Reads a text's lines, as many as the longest can have; says how many numbers they are.
fn read_lines(text: &[u8], lines: &mut [u32; 13104]) -> Result<usize, RefusalNumbers>
    ensures { LinesRead text.now result lines.new }
{
    match sheet::read(text, lines) {
        Ok(count) => Ok(8 * count),
        Err(refusal) => Err(sheet::refusal_numbers(refusal)),
    }
}

// Reads a text and fills the output with what `tell` puts of its lines, or with the reading's refusal: so many bytes. Where less is lent than `limit` it answers none and changes nothing; a refusal changes its own bytes alone, and what `tell` changes is in `tell`'s contract.
pub fn print_text<F: FnOnce(&[u32], &mut [u8]) -> usize>(
    text: &[u8],
    output: &mut [u8],
    limit: usize,
    tell: F,
) -> Option<usize>
    requires room { 20 ≤ limit }
    requires tells { limit ≤ length output.old → (lines : List Line) → read_of text.now line_limit ≡ good lines → TakesLines F.FnOnce tell (lent_of lines) output.old }
    ensures { TextPrinted (λ numbers size. TellsLines F.FnOnce tell numbers output.old size output.new) limit text.now output.old result output.new }
{
    if output.len() < limit {
        return None;
    }
    let mut lines = [0; 13104];
    Some(match read_lines(text, &mut lines) {
        Ok(used) => tell(&lines[..used], output),
        Err(said) => put_refusal(said.number, said.line, output).unwrap(),
    })
}

// Reads a text, judges it and fills the output with what the judging program prints: so many bytes, or none where less is lent than can be printed. Of lent output that is long enough only the bytes that the answer counts are changed; otherwise nothing is.
pub fn judge_text(text: &[u8], output: &mut [u8]) -> Option<usize>
    ensures { ReportMeets text.now output.old (report_says result) output.new }
{
    print_text(text, output, 192586, report_lines)
}
