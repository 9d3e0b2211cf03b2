// Entry points for a host in C: text, lent lines and lent steps as bytes, a u32 or u16 as its bytes, lowest first.
#![tactic(auto)]

mod bytes;
mod records;

ghost use Rattle.std.specs.Prelude.{◌≡◌, ◌*◌, ◌/◌, ◌≤◌, Ok, min, length, take};
ghost use Rattle.sheet.specs.Answer.{refusal_says};
ghost use Rattle.sheet.specs.Read.{read_says};
ghost use Rattle.sheet.specs.Write.{write_says};
ghost use Rattle.chase.specs.Judge.{judged as judgedAs, refuses as refusedAs};
ghost use Rattle.judging.specs.Answer.{verdict_of, judge_says};
ghost use Rattle.carrying.specs.Contract.{carried as carriedAs, refuses as refuses_to_carry};
ghost use Rattle.running.specs.Answer.{carry_refusal_number, carry_refusal_line};
ghost use Rattle.running.specs.Inner.Carry.{Settled};
ghost use Rattle.steps.specs.Showing.{shown_at};
ghost use Rattle.forecasting.specs.Answer.{figure_of, forecast_says};
ghost use Rattle.explaining.specs.Answer.{explain_says};
ghost use Rattle.followup.specs.Bytes.{numbers_of};
ghost use Rattle.followup.specs.Reply.{version, Replies, ReadsBytes, WritesBytes, FindsPattern, JudgeReplies, JudgesNumbers, JudgesBytes, JudgesText, CarryReplies, CarriesNumbers, CarriesBytes, figure_number, ForecastReplies, ForecastsBytes, ExplainReplies, ExplainsBytes, ShowsStep, FindsLine};
ghost use Rattle.followup.specs.Inner.Numbers.{ReadsNumbers, first_numbers, TakesNumbers, AnswersNumbers, WritesNumbers, ForecastsNumbers, ExplainsNumbers};
ghost use Rattle.followup.specs.Inner.First.{FirstSays};

use explaining::ExplainRefusal;
use forecasting::ForecastRefusal;
use judging::{JudgeRefusal, Verdict};
use running::CarryRefusal;
use sheet::Refusal;

// What reading, writing, finding a pattern and explaining answer: refusal 0 and a count, or a refusal with its number and line.
// Which refusal it is, is a number here: the C interface.
#[repr(C)]
#[derive(Drop)]
pub struct Reply {
    pub refusal: u32,
    pub line: usize,
    pub count: usize,
}

// What judging answers: refusal 0 and the figures, or a refusal with its number and line.
// Refusal and verdict are numbers here: the C interface.
#[repr(C)]
#[derive(Drop)]
pub struct JudgeReply {
    pub refusal: u32,
    pub line: usize,
    pub verdict: usize,
    pub deepest: usize,
    pub shapes: usize,
    pub fired: usize,
    pub share: usize,
    pub row: usize,
    pub trail: usize,
    pub loop_steps: usize,
}

// What carrying out answers: refusal 0, how many records there are and how many firings made them; or a refusal with its number and line.
// Which refusal it is, is a number here: the C interface.
#[repr(C)]
#[derive(Drop)]
pub struct CarryReply {
    pub refusal: u32,
    pub line: usize,
    pub records: usize,
    pub firings: usize,
}

// What the forecast answers: refusal 0 and three figures; or a refusal with its number and line. A figure beyond the largest u32 is one more than that.
// Refusal and figures are numbers here: the C interface.
#[repr(C)]
#[derive(Drop)]
pub struct ForecastReply {
    pub refusal: u32,
    pub line: usize,
    pub values: u64,
    pub records: u64,
    pub pairs: u64,
}

// A step: rule, H line within it (1 to 4), from field, to field, fresh (1) or carried (0).
// Fresh or carried is a number here: the C interface.
#[repr(C)]
#[derive(Drop)]
pub struct StepReply {
    pub rule: u16,
    pub head: u16,
    pub from: u16,
    pub to: u16,
    pub fresh: u16,
}

// Where a line begins, and where it ends, after its byte 10.
#[repr(C)]
#[derive(Drop)]
pub struct SpanReply {
    pub start: usize,
    pub end: usize,
}

fn counts(count: usize) -> Reply
    ensures { (result.refusal ≡ 0) × (result.line ≡ 0) × (result.count ≡ count) }
{
    Reply {
        refusal: 0,
        line: 0,
        count,
    }
}

fn no_count(refusal: u32, line: usize) -> Reply
    ensures { (result.refusal ≡ refusal) × (result.line ≡ line) × (result.count ≡ 0) }
{
    Reply {
        refusal,
        line,
        count: 0,
    }
}

fn refuses(refusal: Refusal) -> Reply
    ensures { Replies (refusal_says refusal) result }
{
    let said = sheet::refusal_numbers(refusal);
    no_count(said.number as u32, said.line)
}

fn least(a: usize, b: usize) -> usize
    ensures { result ≡ min a b }
{
    if a < b { a } else { b }
}

// How many numbers of four bytes so many bytes hold, or the most; a last part too short for a number counts as none.
fn count_of(bytes: usize, most: usize) -> usize
    ensures { result ≡ min (bytes / 4) most }
{
    least(bytes / 4, most)
}

// Decodes the lines, one more than a sheet can have at most, and counts their numbers.
fn decode_lines(lines: &[u8], numbers: &mut [u32]) -> usize
    requires { min (length lines.now / 4) 18952 ≤ length numbers.old }
    ensures { (result ≤ length numbers.old) × (take result numbers.new ≡ take 18952 (numbers_of 4 lines.now)) × (result ≡ min (length lines.now / 4) 18952) }
{
    let count = count_of(lines.len(), 18952);
    bytes::decode(lines, numbers, count);
    count
}

// Decodes lent lines into room for N numbers, and answers what `f` answers of them; `lent` is the other memory that is lent.
fn numbers_in<const N: usize, R, F: FnOnce(&[u32], &mut [u8]) -> R>(
    lines: &[u8],
    lent: &mut [u8],
    f: F,
) -> R
    requires room { (min (length lines.now / 4) 18952 ≤ N) × (N ≤ 18952) }
    requires callable { TakesNumbers F.FnOnce f (first_numbers lines.now) lent.old }
    ensures { AnswersNumbers F.FnOnce f (first_numbers lines.now) lent.old result lent.new }
{
    let mut numbers = [0; N];
    let count = decode_lines(lines, &mut numbers);
    f(&numbers[..count], lent)
}

// Decodes lent lines, one more than a sheet can have at most, and answers what `f` answers of their numbers. For a small sheet less room is cleared.
fn with_numbers<R, F: FnOnce(&[u32], &mut [u8]) -> R>(lines: &[u8], lent: &mut [u8], f: F) -> R
    requires { TakesNumbers F.FnOnce f (first_numbers lines.now) lent.old }
    ensures { AnswersNumbers F.FnOnce f (first_numbers lines.now) lent.old result lent.new }
{
    if lines.len() / 4 > 2048 {
        return numbers_in::<18952, R, F>(lines, lent, f);
    }
    numbers_in::<2048, R, F>(lines, lent, f)
}

// What reading or writing answers, as a reply.
fn count_reply(answer: Result<usize, Refusal>) -> Reply
    ensures read { Replies (read_says answer) result }
    ensures written { Replies (write_says answer) result }
{
    match answer {
        Ok(count) => counts(count),
        Err(refusal) => refuses(refusal),
    }
}

// Reads a text into numbers, eight for a line.
fn read_numbers(text: &[u8], numbers: &mut [u32]) -> Reply
    ensures { ReadsNumbers text.now numbers.old result numbers.new }
{
    count_reply(sheet::read(text, numbers))
}

// Reads a text, with room for the numbers of as many lines as it can have.
fn read_lines(text: &[u8], numbers: &mut [u32], lines: &mut [u8]) -> Reply
    requires { 8 * (min (length text.now) 32768 / 20) ≤ length numbers.old }
    ensures { ReadsBytes text.now lines.old result lines.new }
{
    let room = 8 * least(lines.len() / 4 / 8, numbers.len() / 8);
    let said = read_numbers(text, &mut numbers[..room]);
    bytes::encode_u32(numbers, lines, 8 * said.count);
    said
}

// Writes lines that are held as numbers.
fn write_numbers(numbers: &[u32], text: &mut [u8]) -> Reply
    ensures { WritesNumbers numbers.now text.old result text.new }
{
    count_reply(sheet::write(numbers, text))
}

fn judged(verdict: Verdict) -> JudgeReply
    ensures { JudgeReplies (judge_says (Ok verdict)) result }
{
    let (number, f) = match verdict {
        Verdict::Settles(f) => (1, f),
        Verdict::Endless(f) => (2, f),
    };
    JudgeReply {
        refusal: 0,
        line: 0,
        verdict: number,
        deepest: f.deepest,
        shapes: f.shapes,
        fired: f.fired,
        share: f.share,
        row: f.row,
        trail: f.trail,
        loop_steps: f.turns,
    }
}

fn no_judgement(refusal: u32, line: usize) -> JudgeReply
    ensures { JudgeReplies (refusedAs refusal line) result }
{
    JudgeReply {
        refusal,
        line,
        verdict: 0,
        deepest: 0,
        shapes: 0,
        fired: 0,
        share: 0,
        row: 0,
        trail: 0,
        loop_steps: 0,
    }
}

// What judging answers, as a reply.
fn judge_reply(answer: Result<Verdict, JudgeRefusal>) -> JudgeReply
    ensures { JudgeReplies (judge_says answer) result }
{
    match answer {
        Ok(verdict) => judged(verdict),
        Err(refusal) => {
            let said = judging::refusal_numbers(refusal);
            no_judgement(said.number as u32, said.line)
        }
    }
}

// Judges lines that are held as numbers, and puts the steps into the lent bytes; a refusal counts none.
fn judge_numbers(numbers: &[u32], steps: &mut [u8]) -> JudgeReply
    requires { 20480 ≤ length steps.old / 2 }
    ensures { JudgesNumbers numbers.now steps.old result steps.new }
{
    let mut written = [0; 20480];
    let said = judge_reply(judging::judge(numbers, &mut written));
    bytes::encode_u16(&written, steps, 5 * said.trail + 5 * said.loop_steps);
    said
}

// Judges a text, with room for the numbers of as many lines as it can have.
fn judge_read(text: &[u8], numbers: &mut [u32], steps: &mut [u8]) -> JudgeReply
    requires { (8 * (min (length text.now) 32768 / 20) ≤ length numbers.old) × (20480 ≤ length steps.old / 2) }
    ensures { JudgesText text.now steps.old result steps.new }
{
    let said = read_numbers(text, numbers);
    if said.refusal == 0 {
        return judge_numbers(&numbers[..8 * said.count], steps);
    }
    no_judgement(said.refusal, said.line)
}

// Judges any text.
fn judge_long_text(text: &[u8], steps: &mut [u8]) -> JudgeReply
    requires { 20480 ≤ length steps.old / 2 }
    ensures { JudgesText text.now steps.old result steps.new }
{
    let mut many = [0; 13104];
    judge_read(text, &mut many, steps)
}

fn carried(records: usize, firings: usize) -> CarryReply
    ensures { CarryReplies (carriedAs records firings) result }
{
    CarryReply {
        refusal: 0,
        line: 0,
        records,
        firings,
    }
}

fn not_carried(refusal: u32, line: usize) -> CarryReply
    ensures { CarryReplies (refuses_to_carry refusal line) result }
{
    CarryReply {
        refusal,
        line,
        records: 0,
        firings: 0,
    }
}

// A refusal of carrying out, as a reply.
fn carry_refuses(refusal: CarryRefusal) -> CarryReply
    ensures { CarryReplies (refuses_to_carry (carry_refusal_number refusal) (carry_refusal_line refusal)) result }
{
    let said = running::refusal_numbers(refusal);
    not_carried(said.number as u32, said.line)
}

// Judges lines first: they must settle.
fn settles(numbers: &[u32], places: &mut [u16]) -> Result<(), CarryRefusal>
    requires { length places.old ≡ 24576 }
    ensures { FirstSays numbers.now result }
{
    match judging::judge(numbers, places)? {
        Verdict::Settles(_) => Ok(()),
        Verdict::Endless(_) => Err(CarryRefusal::Endless),
    }
}

// Carries the rules of a sheet out that settles, and puts the records into the lent bytes when the answer is sure. Its rows are not on the stack while the
// lines are judged.
#[inline(never)]
fn carry_settled(numbers: &[u32], places: &mut [u16], records: &mut [u8]) -> CarryReply
    requires { Settled numbers.now (numbers_of 4 records.old) × (length places.old ≡ 24576) }
    ensures { CarriesNumbers numbers.now records.old result records.new }
{
    let mut rows = [0; 28672];
    match running::run(numbers, &mut rows, places) {
        Ok(totals) => {
            records::encode_records(&rows, totals.records, records);
            carried(totals.records, totals.firings)
        }
        Err(refusal) => carry_refuses(CarryRefusal::from(refusal)),
    }
}

// Carries the rules of lines out.
fn carry_numbers(numbers: &[u32], records: &mut [u8]) -> CarryReply
    requires { 32768 ≤ length records.old / 4 }
    ensures { CarriesNumbers numbers.now records.old result records.new }
{
    // 24,576 places: for the steps of judging, then for looking records up.
    let mut places = [0; 24576];
    match settles(numbers, &mut places) {
        Ok(()) => carry_settled(numbers, &mut places, records),
        Err(refusal) => carry_refuses(refusal),
    }
}

// A figure as a number: beyond is one more than the largest u32.
fn figure_number(figure: Option<u32>) -> u64
    ensures { result ≡ figure_number (figure_of figure) }
{
    match figure {
        Some(number) => number as u64,
        None => 4294967296,
    }
}

// What the forecast answers, as a reply.
fn forecast_reply(answer: Result<forecasting::Figures, ForecastRefusal>) -> ForecastReply
    ensures { ForecastReplies (forecast_says answer) result }
{
    match answer {
        Ok(f) => {
            let values = f.values;
            let records = f.records;
            let pairs = f.pairs;
            ForecastReply {
                refusal: 0,
                line: 0,
                values: figure_number(values),
                records: figure_number(records),
                pairs: figure_number(pairs),
            }
        }
        Err(refusal) => {
            let said = forecasting::refusal_numbers(refusal);
            ForecastReply {
                refusal: said.number as u32,
                line: said.line,
                values: 0,
                records: 0,
                pairs: 0,
            }
        }
    }
}

// Foretells of lines that are held as numbers. Nothing else is lent.
fn forecast_numbers(numbers: &[u32], _lent: &mut [u8]) -> ForecastReply
    ensures { ForecastsNumbers numbers.now result }
{
    forecast_reply(forecasting::forecast(numbers))
}

// What explaining answers, as a reply.
fn explain_reply(answer: Result<usize, ExplainRefusal>) -> Reply
    ensures { ExplainReplies (explain_says answer) result }
{
    match answer {
        Ok(bytes) => counts(bytes),
        Err(refusal) => {
            let said = explaining::refusal_numbers(refusal);
            no_count(said.number as u32, said.line)
        }
    }
}

// Explains lines that are held as numbers.
fn explain_numbers(numbers: &[u32], text: &mut [u8]) -> Reply
    ensures { ExplainsNumbers numbers.now text.old result text.new }
{
    explain_reply(explaining::explain(numbers, text))
}

// The numbers of step k, counted from 0; five zeros where the bytes hold none.
fn step_numbers(steps: &[u8], k: usize) -> [u16; 5]
    ensures { (length result ≡ 5) × (shown_at result 0 ≡ shown_at (numbers_of 2 steps.now) k) }
{
    if k < steps.len() / 10 {
        return bytes::five_at(steps, 10 * k);
    }
    [0; 5]
}

// ---- what the archive exports; the names end in the interface's number

#[unsafe(no_mangle)]
pub extern "C" fn followup_version() -> u32
    ensures { result ≡ version }
{
    1
}

// Reads a text into lent lines, 32 bytes each. A text has up to 1,638 lines, and one of up to 5,120 bytes up to 256.
#[unsafe(no_mangle)]
pub extern "C" fn followup_read_v1(text: &[u8], lines: &mut [u8]) -> Reply
    ensures { ReadsBytes text.now lines.old result lines.new }
{
    // The same two rooms as in judging a text, but what is done in them differs: one function for both is no plainer.
    if text.len() > 5120 {
        let mut many = [0; 13104];
        return read_lines(text, &mut many, lines);
    }
    let mut few = [0; 2048];
    read_lines(text, &mut few, lines)
}

// Writes lent lines, 32 bytes each, as text.
#[unsafe(no_mangle)]
pub extern "C" fn followup_write_v1(lines: &[u8], text: &mut [u8]) -> Reply
    ensures { WritesBytes lines.now text.old result text.new }
{
    with_numbers(lines, text, write_numbers)
}

// The number of a record's pattern; its fields are four bytes each.
#[unsafe(no_mangle)]
pub extern "C" fn followup_pattern_v1(fields: &[u8]) -> Reply
    ensures { FindsPattern fields.now result }
{
    let mut numbers = [0u32; 7];
    let count = count_of(fields.len(), 7);
    bytes::decode(fields, &mut numbers, count);
    match sheet::pattern(&numbers[..count]) {
        Some(number) => counts(number),
        None => no_count(10, 0),
    }
}

// Judges lent lines, 32 bytes each. At least 4,096 steps, ten bytes each, are lent for the trail and the loop.
#[unsafe(no_mangle)]
pub extern "C" fn followup_judge_v1(lines: &[u8], steps: &mut [u8]) -> JudgeReply
    ensures { JudgesBytes lines.now steps.old result steps.new }
{
    if steps.len() / 2 < 20480 {
        return no_judgement(12, 0);
    }
    with_numbers(lines, steps, judge_numbers)
}

// Judges a text. At least 4,096 steps, ten bytes each, are lent for the trail and the loop. A text of up to 5,120 bytes has up to 256 lines.
#[unsafe(no_mangle)]
pub extern "C" fn followup_judge_text_v1(text: &[u8], steps: &mut [u8]) -> JudgeReply
    ensures { JudgesText text.now steps.old result steps.new }
{
    if steps.len() < 40960 {
        return no_judgement(12, 0);
    }
    // As in reading a text. The room for a long text has a frame of its own.
    if text.len() > 5120 {
        return judge_long_text(text, steps);
    }
    let mut few = [0; 2048];
    judge_read(text, &mut few, steps)
}

// Carries the rules of lent lines out, 32 bytes each. Room for at least 4,096 records, 32 bytes each, is lent. A good call puts the records there as R lines and changes nothing after them; a refusal changes nothing.
#[unsafe(no_mangle)]
pub extern "C" fn followup_carry_v1(lines: &[u8], records: &mut [u8]) -> CarryReply
    ensures { CarriesBytes lines.now records.old result records.new }
{
    if records.len() / 4 < 32768 {
        return not_carried(12, 0);
    }
    with_numbers(lines, records, carry_numbers)
}

// Foretells of lent lines, 32 bytes each, how many values, records, and pairs of rule and carried values carrying their rules out may come to.
#[unsafe(no_mangle)]
pub extern "C" fn followup_forecast_v1(lines: &[u8]) -> ForecastReply
    ensures { ForecastsBytes lines.now result }
{
    with_numbers(lines, &mut [], forecast_numbers)
}

// Writes the sentences of an endless sheet as text: one for each step of its trail and its loop. The lines are lent, 32 bytes each. A good call changes the bytes that it counts and nothing else; a refusal changes nothing.
#[unsafe(no_mangle)]
pub extern "C" fn followup_explain_v1(lines: &[u8], text: &mut [u8]) -> Reply
    ensures { ExplainsBytes lines.now text.old result text.new }
{
    with_numbers(lines, text, explain_numbers)
}

// Step k of lent steps, counted from 0; all zeros where they hold none.
#[unsafe(no_mangle)]
pub extern "C" fn followup_step_at_v1(steps: &[u8], k: usize) -> StepReply
    ensures { ShowsStep steps.now k result }
{
    let numbers = step_numbers(steps, k);
    let shown = steps::shown_at(&numbers, 0);
    StepReply {
        rule: shown.rule,
        head: shown.head,
        from: shown.from,
        to: shown.to,
        fresh: shown.fresh,
    }
}

// Where line `number`, counted from 1, begins and ends. Where there is no such line, both are where the last whole line ends.
#[unsafe(no_mangle)]
pub extern "C" fn followup_line_span_v1(text: &[u8], number: usize) -> SpanReply
    ensures { FindsLine text.now number result }
{
    let mut start: usize = 0;
    let mut end: usize = 0;
    for n in 0..number {
        start = end;
        end = walker::moved_from(text, start);
        if end == start {
            return SpanReply { start, end };
        }
    }
    SpanReply { start, end }
}
