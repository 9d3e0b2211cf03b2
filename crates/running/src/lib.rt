// Carrying the rules out: the records that the rules make of the table's rows.
#![tactic(auto)]

mod chain;
mod copying;
mod firing;
mod firings;
mod hash;
mod marks;
mod pairs;
mod records;
mod rows;
mod visits;

ghost use Rattle.std.specs.Prelude.{◌≡◌, ◌+◌, ◌≤◌, length};
ghost use Rattle.judging.specs.Answer.{judge_refusal_number, judge_refusal_line};
ghost use Rattle.rules.specs.Inner.Bytes.{Clear, Part};
ghost use Rattle.rules.specs.Table.{SheetHeld, TableFits, table_rules, rules_in};
ghost use Rattle.carrying.specs.Contract.{CarryMeets};
ghost use Rattle.running.specs.Held.{records_fit};
ghost use Rattle.running.specs.Run.{RunMeets};
ghost use Rattle.running.specs.Answer.{carry_says, run_says, carry_refusal_number, carry_refusal_line, run_refusal_of, carry_refusal_of};
ghost use Rattle.running.specs.Inner.Begun.{RanWith};
ghost use Rattle.running.specs.Inner.Held.{OrOver};
ghost use Rattle.running.specs.Inner.Visits.{rows_held};
ghost use Rattle.running.specs.Inner.Carry.{Settled};

use judging::{JudgeRefusal, Verdict};
use rules::RulesRefusal;
use sheet::RefusalNumbers;
use visits::Counts;

// How many records there are, and how many firings made them.
#[derive(Clone, Copy)]
pub struct Totals {
    pub records: usize,
    pub firings: usize,
}

// Why carrying out is refused.
#[derive(Clone, Copy)]
pub enum CarryRefusal {
    // Room for fewer than 4,096 records is lent.
    RecordsShort,
    // Lent lines that are no sheet, with the first wrong line.
    LineWrong(usize),
    // The reachable records show more than 512 shapes.
    ShapesOver,
    // The sheet is endless.
    Endless,
    // More than 4,096 records.
    RecordsOver,
    // A number over 99,999,999.
    NumberOver,
}

// Why a run does not end.
#[derive(Clone, Copy)]
pub enum RunRefusal {
    // More than 4,096 records.
    RecordsOver,
    // A number over 99,999,999.
    NumberOver,
    // Lent lines that are no sheet, with the first wrong line.
    LineWrong(usize),
    // Room for fewer than 4,096 records, seven numbers each, or not 24,576 places are lent.
    RoomWrong,
}

// A refusal of the rules as one of a run.
impl From<RulesRefusal> for RunRefusal {
    ghost from_gives = { λ r s. s ≡ run_refusal_of r };

    fn from(refusal: RulesRefusal) -> RunRefusal {
        match refusal {
            RulesRefusal::LineWrong(line) => RunRefusal::LineWrong(line),
            RulesRefusal::TableShort => RunRefusal::RoomWrong,
        }
    }
}

// A refusal of judging as one of carrying out, with the same number and line.
impl From<JudgeRefusal> for CarryRefusal {
    ghost from_gives = { λ r c. (carry_refusal_number c ≡ judge_refusal_number r) × (carry_refusal_line c ≡ judge_refusal_line r) };

    fn from(refusal: JudgeRefusal) -> CarryRefusal {
        match refusal {
            JudgeRefusal::StepsShort => CarryRefusal::RecordsShort,
            JudgeRefusal::LineWrong(line) => CarryRefusal::LineWrong(line),
            JudgeRefusal::ShapesOver => CarryRefusal::ShapesOver,
        }
    }
}

// A refusal of a run as one of carrying out.
impl From<RunRefusal> for CarryRefusal {
    ghost from_gives = { λ r c. c ≡ carry_refusal_of r };

    fn from(refusal: RunRefusal) -> CarryRefusal {
        match refusal {
            RunRefusal::RecordsOver => CarryRefusal::RecordsOver,
            RunRefusal::NumberOver => CarryRefusal::NumberOver,
            RunRefusal::LineWrong(line) => CarryRefusal::LineWrong(line),
            RunRefusal::RoomWrong => CarryRefusal::RecordsShort,
        }
    }
}

// Carries the rules of lent lines out. Room for at least 4,096 records, as R lines of eight numbers, is lent. A good call puts the records there and changes nothing else; a refusal changes nothing.
pub fn carry_out(lines: &[u32], records: &mut [u32]) -> Result<Totals, CarryRefusal>
    ensures { CarryMeets lines.now records.old (carry_says result) records.new }
{
    if records.len() < 32768 {
        return Err(CarryRefusal::RecordsShort);
    }
    let mut places = no_places();
    match judging::judge(lines, &mut places)? {
        Verdict::Settles(_) => carry_settled(lines, &mut places, records),
        Verdict::Endless(_) => Err(CarryRefusal::Endless),
    }
}

// The number and the line of a refusal; line 0 where none is named.
pub fn refusal_numbers(refusal: CarryRefusal) -> RefusalNumbers
    ensures { (result.number ≡ carry_refusal_number refusal) × (result.line ≡ carry_refusal_line refusal) }
{
    match refusal {
        CarryRefusal::RecordsShort => RefusalNumbers {
            number: 12,
            line: 0,
        },
        CarryRefusal::LineWrong(line) => RefusalNumbers { number: 8, line },
        CarryRefusal::ShapesOver => RefusalNumbers {
            number: 11,
            line: 0,
        },
        CarryRefusal::Endless => RefusalNumbers {
            number: 21,
            line: 0,
        },
        CarryRefusal::RecordsOver => RefusalNumbers {
            number: 22,
            line: 0,
        },
        CarryRefusal::NumberOver => RefusalNumbers {
            number: 23,
            line: 0,
        },
    }
}

// Runs the rules of lent lines, without a verdict. Room for at least 4,096 records, seven numbers each, is lent: 8 × its kind + how many numbers it has, then its numbers; and 24,576 places, in which they are looked up. An answer Ok puts the records there first; what else the lent memory then holds, and what it holds with RecordsOver and NumberOver, is the run's choice.
pub fn run(lines: &[u32], rows: &mut [u32], places: &mut [u16]) -> Result<Totals, RunRefusal>
    ensures { RunMeets lines.now rows.old rows.new (length places.old) (run_says result) }
{
    if rows.len() < 28672 {
        return Err(RunRefusal::RoomWrong);
    }
    if places.len() != 24576 {
        return Err(RunRefusal::RoomWrong);
    }
    let mut table = [0u8; 16384];
    let count = rules::rules_of(lines, &mut table)?;
    run_rules(lines, rows, places, &table, count)
}

// Sets so many places, from `at` on, to 0.
fn clear(index: &mut [u16], at: usize, size: usize)
    requires { at + size ≤ length index.old }
    ensures { Part index.old at size (λ k. 0) index.new }
{
    index[at..at + size].fill(0);
}

// Runs the rules of a sheet: once with all pairs kept, which counts the firings. Where these pairs have no room, again with those of rules with fresh marks kept, and the firings counted afterwards.
fn run_rules(
    lines: &[u32],
    rows: &mut [u32],
    index: &mut [u16],
    table: &[u8; 16384],
    rules: usize,
) -> Result<Totals, RunRefusal>
    requires { SheetHeld lines.now × records_fit rows.old × (length index.old ≡ 24576) × TableFits table.now rules × (table_rules table.now rules ≡ rules_in lines.now) }
    ensures { RunMeets lines.now rows.old rows.new (length index.old) (run_says result) }
{
    clear(index, 0, 24576);
    let Some(noted) = run_with(lines, rows, index, table, rules, 1) else {
        return run_again(lines, rows, index, table, rules);
    };
    if 100000000 < noted.next {
        return Err(RunRefusal::NumberOver);
    }
    let records = noted.rows;
    let firings = noted.pairs;
    Ok(Totals { records, firings })
}

// Runs the rules of a sheet with the pairs of rules with fresh marks kept, which have room wherever the records have.
fn run_again(
    lines: &[u32],
    rows: &mut [u32],
    index: &mut [u16],
    table: &[u8; 16384],
    rules: usize,
) -> Result<Totals, RunRefusal>
    requires { SheetHeld lines.now × records_fit rows.old × (length index.old ≡ 24576) × TableFits table.now rules × (table_rules table.now rules ≡ rules_in lines.now) }
    ensures { RunMeets lines.now rows.old rows.new (length index.old) (run_says result) }
{
    clear(index, 0, 24576);
    let Some(last) = run_with(lines, rows, index, table, rules, 0) else {
        return Err(RunRefusal::RecordsOver);
    };
    if 100000000 < last.next {
        return Err(RunRefusal::NumberOver);
    }
    let records = last.rows;
    let firings = firings::firings(rows, index, table, rules, records, last.by);
    Ok(Totals { records, firings })
}

// Begins a run and visits all records; None where there are more than 4,096.
fn run_with(
    lines: &[u32],
    rows: &mut [u32],
    index: &mut [u16],
    table: &[u8; 16384],
    rules: usize,
    least: usize,
) -> Option<Counts>
    requires { SheetHeld lines.now × records_fit rows.old × Clear index.old 24576 × TableFits table.now rules × (table_rules table.now rules ≡ rules_in lines.now) × (least ≤ 1) }
    ensures { OrOver rows_held (λ d. RanWith lines.now rows.old table.now rules least rows.new index.new d) result }
{
    let fresh = marks::fresh_marks(table, rules, least);
    let first = rows::begin(lines, rows, index);
    visits::visit_all(rows, index, table, rules, &fresh, first)
}

// Room for 4,096 records, seven numbers each.
fn no_rows() -> [u32; 28672]
    ensures { records_fit result }
{
    [0u32; 28672]
}

// Places in which records and pairs are looked up. Judging puts its steps there before.
fn no_places() -> [u16; 24576]
    ensures { length result ≡ 24576 }
{
    [0u16; 24576]
}

// Carries the rules of a sheet out that settles.
fn carry_settled(
    lines: &[u32],
    places: &mut [u16],
    records: &mut [u32],
) -> Result<Totals, CarryRefusal>
    requires { Settled lines.now records.old × (length places.old ≡ 24576) }
    ensures { CarryMeets lines.now records.old (carry_says result) records.new }
{
    let mut rows = no_rows();
    let totals = run(lines, &mut rows, places)?;
    copying::copy_out(&rows, totals.records, records);
    Ok(totals)
}
