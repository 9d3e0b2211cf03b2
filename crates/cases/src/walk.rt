// The steps that the judge names, fired in the small chase.
ghost use Rattle.std.specs.Prelude.{◌+◌, ◌≤◌};

use crate::rule::{Line, Rule, nth, numbers, rule_at};
use crate::small_chase::{Chase, ROOM, Record, Shape, Value, fires, shape_of};
use crate::table::{Entry, Keyed, add};
use arrayvec::ArrayVec;
use judging::Figures;
use sheet::{LETTER_B, LETTER_R};
use steps::StepRecord;

// Where the steps have led: the last record, and the field in it whose value is followed, counted from 0; None where no value is yet.
#[derive(Clone, Copy)]
struct Going {
    pub record: Record,
    pub field: Option<u8>,
}

// The shapes that are met, each with the field that is followed.
type Met = ArrayVec<Keyed<(Shape, Option<u8>)>, ROOM>;

impl Entry for (Shape, Option<u8>) {
    fn key(&self) -> u32 {
        self.0.key()
    }
}

// What a step does with the value that is followed.
#[derive(Clone, Copy)]
enum Way {
    // It only reaches a record.
    Reaches,
    // It makes a number in a field, of the value in a field; or of none, which is the first to be followed.
    Makes { from: Option<u8>, to: u8 },
    // It carries the value of a field to a field.
    Carries { from: u8, to: u8 },
}

// A field, counted from 0, by its number, counted from 1; None for 0 and for fields that there are not.
fn field_of(number: u16) -> Option<u8> {
    u8::try_from(number.checked_sub(1)?)
        .ok()
        .filter(|field| *field < 6)
}

// What a step does; None for what no step can do.
fn way_of(step: &StepRecord) -> Option<Way> {
    match (step.from, step.to, step.fresh) {
        (0, 0, 0) => Some(Way::Reaches),
        (0, _, 1) => Some(Way::Makes {
            from: None,
            to: field_of(step.to)?,
        }),
        (_, _, 1) => Some(Way::Makes {
            from: Some(field_of(step.from)?),
            to: field_of(step.to)?,
        }),
        (_, _, 0) => Some(Way::Carries {
            from: field_of(step.from)?,
            to: field_of(step.to)?,
        }),
        _ => None,
    }
}

// The place of the value in a field.
fn value_in(record: &Record, field: u8) -> Option<u16> {
    *record.fields.get(usize::from(field))?
}

// A rule that fires on a record, and what it makes of that by one of its H lines.
#[derive(Clone, Copy)]
struct Firing<'a> {
    pub rule: Rule<'a>,
    pub head: &'a Line,
    pub record: Record,
    pub made: Record,
}

impl Firing<'_> {
    // The mark of a field in the H line.
    fn mark(&self, field: u8) -> Option<u32> {
        numbers(self.head).get(usize::from(field)).copied()
    }

    // Whether a field holds this rule's fresh number for its mark, and that carries the value of the other field; with none it carries nothing.
    fn makes(&self, chase: &Chase<'_>, from: Option<u8>, to: u8) -> Option<bool> {
        let Value::Fresh {
            rule,
            mark,
            carried,
            ..
        } = &chase
            .values
            .get(usize::from(value_in(&self.made, to)?))?
            .entry
        else {
            return None;
        };
        let is_right = match from {
            Some(field) => carried.contains(&Some(value_in(&self.record, field)?)),
            None => carried.iter().all(|value| value.is_none()),
        };
        Some(is_right && *rule == self.rule.at && self.mark(to) == Some(*mark))
    }

    // Whether a field's mark stands in the B line, and its value in the other field.
    fn carries(&self, from: u8, to: u8) -> Option<bool> {
        let value = value_in(&self.made, to)?;
        let is_carried = self.rule.marks.contains(&self.mark(to)?);
        Some(is_carried && value_in(&self.record, from) == Some(value))
    }
}

// Whether a step starts where the value that is followed stands. Where none is yet, it may make one of any field or of none, or only reach a record.
fn joins(going: &Going, way: Way) -> bool {
    match way {
        Way::Reaches => going.field.is_none(),
        Way::Makes { from, .. } => going.field.is_none() || going.field == from,
        Way::Carries { from, .. } => going.field == Some(from),
    }
}

// What a step's rule makes of the last record; None where there is no such rule or H line, or it does not fire.
fn fire<'a>(chase: &mut Chase<'a>, record: Record, step: &StepRecord) -> Option<Firing<'a>> {
    let lines = chase.lines;
    let rule = rule_at(lines, nth(lines, LETTER_B, usize::from(step.rule))?)?;
    let head = rule.heads.get(usize::from(step.head).checked_sub(1)?)?;
    if !fires(&rule, &record) {
        return None;
    }
    let made = chase.made(&rule, head, &record);
    Some(Firing {
        rule,
        head,
        record,
        made,
    })
}

// Goes one step; None where it is not right.
fn go(chase: &mut Chase<'_>, going: &Going, step: &StepRecord) -> Option<Going> {
    let firing = fire(chase, going.record, step)?;
    let way = way_of(step)?;
    let (is_right, field) = match way {
        Way::Reaches => (true, None),
        Way::Makes { from, to } => (firing.makes(chase, from, to)?, Some(to)),
        Way::Carries { from, to } => (firing.carries(from, to)?, Some(to)),
    };
    if !is_right || !joins(going, way) {
        return None;
    }
    let record = firing.made;
    Some(Going { record, field })
}

// Marks the shape of the last record, with the field that is followed, as met.
fn meet(met: &mut Met, going: &Going) {
    add(met, (shape_of(&going.record), going.field));
}

// Goes from step `first` to the one before `end`, and marks where it starts from each time as met.
fn walk(
    chase: &mut Chase<'_>,
    met: &mut Met,
    steps: &[u16],
    first: usize,
    end: usize,
    start: Going,
) -> Option<Going> {
    let mut going = start;
    for k in first..end {
        meet(met, &going);
        going = go(chase, &going, &steps::shown_at(steps, k))?;
    }
    Some(going)
}

// Goes the trail from its row, which is counted from 1.
fn walk_trail(
    chase: &mut Chase<'_>,
    met: &mut Met,
    steps: &[u16],
    row: usize,
    trail: usize,
) -> Option<Going> {
    let n = nth(chase.lines, LETTER_R, row)?;
    let record = chase.row(n, chase.lines.get(n)?);
    let start = Going {
        record,
        field: None,
    };
    walk(chase, met, steps, 0, trail, start)
}

// The generation of the value that is followed; 0 where none is.
fn generation(chase: &Chase<'_>, going: &Going) -> u16 {
    match going.field {
        Some(field) => chase.generation(value_in(&going.record, field)),
        None => 0,
    }
}

// Whether the trail of a sheet that settles makes a number of the deepest generation; where that is 0, whether there is none.
pub(crate) fn settled_right(chase: &mut Chase<'_>, steps: &[u16], f: &Figures) -> bool {
    if f.turns != 0 {
        return false;
    }
    if f.deepest == 0 {
        return f.row == 0 && f.trail == 0;
    }
    if 3583 < f.trail {
        return false;
    }
    match walk_trail(chase, &mut ArrayVec::new(), steps, f.row, f.trail) {
        Some(going) => usize::from(generation(chase, &going)) == f.deepest,
        None => false,
    }
}

// Goes round the loop once. It must come back to the shape and the field where it began, at a higher generation.
fn turn(
    chase: &mut Chase<'_>,
    met: &mut Met,
    steps: &[u16],
    first: usize,
    end: usize,
    start: Going,
) -> Option<Going> {
    let before = generation(chase, &start);
    let going = walk(chase, met, steps, first, end, start)?;
    if generation(chase, &going) <= before
        || going.field != start.field
        || shape_of(&going.record) != shape_of(&start.record)
    {
        return None;
    }
    Some(going)
}

// Whether the loop that starts after the trail can be gone round three times and meets no pair of shape and field twice in a round.
fn turns_right(
    chase: &mut Chase<'_>,
    steps: &[u16],
    trail: usize,
    turns: usize,
    start: Going,
) -> bool
    requires { trail + turns ≤ 8192 }
{
    let mut met = ArrayVec::new();
    let mut going = start;
    for _ in 0..3 {
        match turn(chase, &mut met, steps, trail, trail + turns, going) {
            Some(next) => going = next,
            None => return false,
        }
    }
    met.len() == turns
}

// Whether the trail of an endless sheet is of reaching steps with no shape twice, and its loop is right.
pub(crate) fn endless_right(chase: &mut Chase<'_>, steps: &[u16], f: &Figures) -> bool {
    if 4096 < f.trail || 4096 < f.turns {
        return false;
    }
    let mut met = ArrayVec::new();
    let Some(going) = walk_trail(chase, &mut met, steps, f.row, f.trail) else {
        return false;
    };
    if going.field.is_some() {
        return false;
    }
    meet(&mut met, &going);
    let field = field_of(steps::shown_at(steps, f.trail).from);
    if met.len() <= f.trail || field.is_none() {
        return false;
    }
    let record = going.record;
    turns_right(chase, steps, f.trail, f.turns, Going { record, field })
}
