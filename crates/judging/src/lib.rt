// Judging a sheet: whether its follow-ups come to rest.
#![tactic(auto)]

mod answer;
mod fresh;
mod grid;
mod kinds;
mod notes;
mod order;
mod search;
mod shape;
mod spread;
mod trail;

ghost use Rattle.std.specs.Prelude.{◌≡◌, ◌≤◌, length};
ghost use Rattle.chase.specs.Judge.{JudgeMeets, shape_limit};
ghost use Rattle.judging.specs.Answer.{judge_says, judge_refusal_number, judge_refusal_line, judge_refusal_of};
ghost use Rattle.rules.specs.Table.{SheetHeld, rules_in, table_rules, TableFits};

use notes::Note;
use rules::RulesRefusal;
use sheet::RefusalNumbers;
use spread::Basis;

// Why judging is refused.
#[derive(Clone, Copy)]
pub enum JudgeRefusal {
    // Fewer than 4,096 steps are lent.
    StepsShort,
    // Lent lines that are no sheet, with the first wrong line.
    LineWrong(usize),
    // The reachable records show more than 512 shapes.
    ShapesOver,
}

// A refusal of the rules as one of judging. The table has room, so the other is never given.
impl From<RulesRefusal> for JudgeRefusal {
    ghost from_gives = { λ r j. j ≡ judge_refusal_of r };

    fn from(refusal: RulesRefusal) -> JudgeRefusal {
        match refusal {
            RulesRefusal::LineWrong(line) => JudgeRefusal::LineWrong(line),
            RulesRefusal::TableShort => JudgeRefusal::StepsShort,
        }
    }
}

// What is said of a sheet beside the verdict: row, trail and loop are counts as document 01 has them.
#[derive(Clone, Copy)]
pub struct Figures {
    pub deepest: usize,
    pub shapes: usize,
    pub fired: usize,
    pub share: usize,
    pub row: usize,
    pub trail: usize,
    pub turns: usize,
}

// Whether the follow-ups of a sheet come to rest.
#[derive(Clone, Copy)]
pub enum Verdict {
    Settles(Figures),
    Endless(Figures),
}

// Judges lent lines, eight numbers each. At least 4,096 steps, five numbers each, are lent for the trail and the loop. A good call changes the steps that it counts and nothing else; a refusal changes nothing.
pub fn judge(lines: &[u32], steps: &mut [u16]) -> Result<Verdict, JudgeRefusal>
    ensures { JudgeMeets shape_limit lines.now steps.old (judge_says result) steps.new }
{
    if steps.len() < 20480 {
        return Err(JudgeRefusal::StepsShort);
    }
    let mut table = [0u8; 16384];
    let count = rules::rules_of(lines, &mut table)?;
    judge_sheet(lines, steps, &table, count)
}

// The number and the line of a refusal in document 01; line 0 where none is named.
pub fn refusal_numbers(refusal: JudgeRefusal) -> RefusalNumbers
    ensures { (result.number ≡ judge_refusal_number refusal) × (result.line ≡ judge_refusal_line refusal) }
{
    match refusal {
        JudgeRefusal::StepsShort => RefusalNumbers {
            number: 12,
            line: 0,
        },
        JudgeRefusal::LineWrong(line) => RefusalNumbers { number: 8, line },
        JudgeRefusal::ShapesOver => RefusalNumbers {
            number: 11,
            line: 0,
        },
    }
}

// Judges lent lines that are a sheet, by the table of their rules. Up to 256 lines have room for 2,048 notes: to clear less for a small sheet.
fn judge_sheet(
    lines: &[u32],
    steps: &mut [u16],
    table: &[u8; 16384],
    rules: usize,
) -> Result<Verdict, JudgeRefusal>
    requires { SheetHeld lines.now × (20480 ≤ length steps.old) × TableFits table.now rules × (table_rules table.now rules ≡ rules_in lines.now) }
    ensures { JudgeMeets shape_limit lines.now steps.old (judge_says result) steps.new }
{
    if lines.len() > 2048 {
        judge_noted::<8192>(lines, steps, table, rules)
    } else {
        judge_noted::<2048>(lines, steps, table, rules)
    }
}

// Judges a sheet with room for so many notes.
fn judge_noted<const ROOM: usize>(
    lines: &[u32],
    steps: &mut [u16],
    table: &[u8; 16384],
    rules: usize,
) -> Result<Verdict, JudgeRefusal>
    requires { SheetHeld lines.now × (20480 ≤ length steps.old) × TableFits table.now rules × (table_rules table.now rules ≡ rules_in lines.now)
        × (ROOM ≤ 8192) }
    ensures { JudgeMeets shape_limit lines.now steps.old (judge_says result) steps.new }
{
    let mut notes = [[0u16; 2]; ROOM];
    judge_rules(lines, steps, table, rules, &mut notes)
}

// Judges a sheet by its rules, with room for notes of firings: finds its shapes, raises their generations, and answers by what these come to.
fn judge_rules(
    lines: &[u32],
    steps: &mut [u16],
    table: &[u8; 16384],
    rules: usize,
    notes: &mut [Note],
) -> Result<Verdict, JudgeRefusal>
    requires { SheetHeld lines.now × (20480 ≤ length steps.old) × TableFits table.now rules × (table_rules table.now rules ≡ rules_in lines.now)
        × (length notes.old ≤ 8192) }
    ensures { JudgeMeets shape_limit lines.now steps.old (judge_says result) steps.new }
{
    // No heap: what is found stands in arrays of this call, and a place is a number. What is cleared stands first: the compiler then clears each array once.
    let mut index = search::no_index();
    let mut shapes = [0u32; 512];
    let mut ways = [[0u16; 3]; 512];
    let mut starts = [0u32; 513];
    let mut fired = [false; 256];
    let mut generations = grid::no_numbers();
    let mut raises = grid::no_raises();
    let kinds = kinds::by_kind(table, rules);
    let Some(count) = search::search(
        lines,
        table,
        rules,
        &kinds,
        &mut shapes,
        &mut index,
        &mut ways,
        notes,
        &mut starts,
        &mut fired,
    ) else {
        return Err(JudgeRefusal::ShapesOver);
    };
    let counts = answer::counts_of(&fired, count, rules);
    let basis = Basis {
        table,
        rules,
        kinds: &kinds,
        shapes: &shapes,
        index: &index,
        notes,
        starts: &starts,
        count: counts.shapes,
    };
    let turning = spread::spread(&basis, &mut generations, &mut raises);
    match turning {
        None => Ok(answer::settled_verdict(steps, &ways, &generations, &raises, counts)),
        Some(y) => Ok(answer::endless_verdict(steps, &ways, &raises, y, counts)),
    }
}
