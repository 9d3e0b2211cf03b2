// A small chase, written from document 01 alone: the records of a sheet, fired until nothing new comes or the tables are full.
use crate::rule::{Line, Rule, firsts, numbers, rule_at, width};
use crate::table::{Entry, Keyed, add, mixed};
use arrayvec::ArrayVec;
use sheet::{LETTER_B, LETTER_R};

// What a field can hold.
#[derive(Clone, Copy, PartialEq, Eq)]
pub(crate) enum Value {
    // A number that a row gives.
    Given(u32),
    // A number 0 of a row is not given: it is a value of its own, that of this line and field.
    Missing {
        line: u16,
        field: u8,
    },
    // A number that a rule makes for a mark where it carries these values.
    Fresh {
        rule: u16,
        mark: u32,
        generation: u16,
        carried: [Option<u16>; 6],
    },
}

impl Value {
    // Its generation; 0 for what no rule makes.
    fn generation(&self) -> u16 {
        match self {
            Value::Fresh { generation, .. } => *generation,
            _ => 0,
        }
    }
}

// What stands in a table's unused places.
impl Default for Value {
    fn default() -> Value {
        Value::Given(0)
    }
}

// A record: its kind, and for each field the place of its value in the table of values; None past its width.
#[derive(Clone, Copy, Default, PartialEq, Eq)]
pub(crate) struct Record {
    pub kind: u32,
    pub fields: [Option<u16>; 6],
}

// A record's kind, and for each field the place of the first field that is equal.
#[derive(Clone, Copy, Default, PartialEq, Eq)]
pub(crate) struct Shape {
    pub kind: u32,
    pub firsts: [u8; 6],
}

// The key of what is keyed so far and the places of values after it.
fn mixed_places(key: u32, places: &[Option<u16>; 6]) -> u32 {
    let mut all = key;
    for place in places {
        all = mixed(all, place.map_or(65536, u32::from));
    }
    all
}

impl Entry for Value {
    fn key(&self) -> u32 {
        match self {
            Value::Given(number) => *number,
            Value::Missing { line, field } => mixed(u32::from(*line), u32::from(*field)),
            Value::Fresh {
                rule,
                mark,
                carried,
                ..
            } => mixed_places(mixed(u32::from(*rule), *mark), carried),
        }
    }
}

impl Entry for Record {
    fn key(&self) -> u32 {
        mixed_places(self.kind, &self.fields)
    }
}

impl Entry for Shape {
    fn key(&self) -> u32 {
        let mut all = self.kind;
        for first in &self.firsts {
            all = mixed(all, u32::from(*first));
        }
        all
    }
}

// A rule goes by the place of its B line.
impl Entry for u16 {
    fn key(&self) -> u32 {
        u32::from(*self)
    }
}

// How many entries a table has room for, and how many that of the values.
pub(crate) const ROOM: usize = 639;

const VALUE_ROOM: usize = 2047;

// The tables of a sheet's chase.
#[derive(Drop)]
pub(crate) struct Chase<'a> {
    pub lines: &'a [Line],
    pub records: ArrayVec<Keyed<Record>, ROOM>,
    pub values: ArrayVec<Keyed<Value>, VALUE_ROOM>,
    pub shapes: ArrayVec<Keyed<Shape>, ROOM>,
    pub fired: ArrayVec<Keyed<u16>, ROOM>,
}

// Whether a rule fires on a record: whether fields with the same mark hold the same value.
pub(crate) fn fires(rule: &Rule<'_>, record: &Record) -> bool {
    if rule.kind != record.kind {
        return false;
    }
    for (mark, value) in rule.marks.iter().zip(&record.fields) {
        for (other, first) in rule.marks.iter().zip(&record.fields) {
            if other == mark {
                if first != value {
                    return false;
                }
                break;
            }
        }
    }
    true
}

// The values that a rule carries from a record: those whose marks stand in an H line.
fn carried(rule: &Rule<'_>, record: &Record) -> [Option<u16>; 6] {
    let mut values = record.fields;
    for (value, mark) in values.iter_mut().zip(&rule.marks) {
        if !rule.heads.iter().any(|head| head[2..].contains(mark)) {
            *value = None;
        }
    }
    values
}

pub(crate) fn shape_of(record: &Record) -> Shape {
    Shape {
        kind: record.kind,
        firsts: firsts(&record.fields),
    }
}

// 100 × part / whole to the nearest whole number, a half to the even neighbour; 0 where the whole is 0. The part is at most 256.
fn nearest(part: usize, whole: usize) -> usize {
    if whole == 0 || 256 < part {
        return 0;
    }
    // How many halves it has, and half of them, an odd one upward; just at a half that may be one too many.
    let halves = 200 * part / whole;
    let upward = halves - halves / 2;
    if 200 * part % whole == 0 && upward % 2 == 1 {
        return halves / 2;
    }
    upward
}

impl<'a> Chase<'a> {
    pub(crate) fn new(lines: &'a [Line]) -> Chase<'a> {
        Chase {
            lines,
            records: ArrayVec::new(),
            values: ArrayVec::new(),
            shapes: ArrayVec::new(),
            fired: ArrayVec::new(),
        }
    }

    // The generation of a value; 0 for none and for what no rule makes.
    pub(crate) fn generation(&self, value: Option<u16>) -> u16 {
        let Some(place) = value else { return 0 };
        match self.values.get(usize::from(place)) {
            Some(value) => value.entry.generation(),
            None => 0,
        }
    }

    // The largest generation of a value.
    pub(crate) fn deepest(&self) -> usize {
        let mut best = 0;
        for value in &self.values {
            best = best.max(value.entry.generation());
        }
        usize::from(best)
    }

    // The place of a value in the table of values, into which it is put unless it is there.
    fn place(&mut self, value: Value) -> Option<u16> {
        u16::try_from(add(&mut self.values, value)?).ok()
    }

    // The fresh number of a mark.
    fn fresh(&mut self, rule: u16, mark: u32, carried: [Option<u16>; 6]) -> Option<u16> {
        let mut largest: u16 = 0;
        for value in carried {
            largest = largest.max(self.generation(value));
        }
        let generation = largest.saturating_add(1);
        self.place(Value::Fresh {
            rule,
            mark,
            generation,
            carried,
        })
    }

    // The record that an H line makes of a record on which its rule fires.
    pub(crate) fn made(&mut self, rule: &Rule<'_>, head: &Line, record: &Record) -> Record {
        let carried = carried(rule, record);
        let mut fields = [None; 6];
        for (field, &mark) in fields.iter_mut().zip(&numbers(head)) {
            if mark != 0 {
                *field = match rule.marks.iter().position(|&other| other == mark) {
                    Some(place) => record.fields[place],
                    None => self.fresh(rule.at, mark, carried),
                };
            }
        }
        Record {
            kind: head[1],
            fields,
        }
    }

    // The place of the value in a field of the row at a line.
    fn row_value(&mut self, at: usize, field: usize, number: u32) -> Option<u16> {
        self.place(match number {
            0 => Value::Missing {
                line: u16::try_from(at).ok()?,
                field: u8::try_from(field).ok()?,
            },
            number => Value::Given(number),
        })
    }

    // The record of the row at a line.
    pub(crate) fn row(&mut self, at: usize, row: &Line) -> Record {
        let kind = row[1];
        let given = numbers(row);
        let mut fields = [None; 6];
        for (field, place) in fields.iter_mut().enumerate().take(width(self.lines, kind)) {
            *place = self.row_value(at, field, given[field]);
        }
        Record { kind, fields }
    }

    // Puts the rows into the table of records.
    fn start(&mut self) {
        for (n, line) in self.lines.iter().enumerate() {
            if line[0] == LETTER_R {
                let record = self.row(n, line);
                add(&mut self.records, record);
            }
        }
    }

    // Whether there is room for the four records and the eleven fresh numbers of a firing, and for as many numbers as following the steps takes.
    fn can_fire(&self) -> bool {
        4 <= self.records.remaining_capacity() && 256 <= self.values.remaining_capacity()
    }

    // Makes what a rule makes of a record, if it fires and there is room for that.
    fn try_rule(&mut self, rule: &Rule<'_>, record: &Record) {
        if fires(rule, record) && self.can_fire() {
            add(&mut self.fired, rule.at);
            for head in rule.heads {
                let new = self.made(rule, head, record);
                add(&mut self.records, new);
            }
        }
    }

    // Tries the rules whose B line has the kind of a record.
    fn try_rules(&mut self, record: &Record) {
        let lines = self.lines;
        for (at, line) in lines.iter().enumerate() {
            if line[0] == LETTER_B && line[1] == record.kind {
                if let Some(rule) = rule_at(lines, at) {
                    self.try_rule(&rule, record);
                }
            }
        }
    }

    // Fires all rules on all records. Says whether nothing new can come.
    fn fire_all(&mut self) -> bool {
        for k in 0..ROOM {
            if !self.can_fire() {
                return false;
            }
            let Some(&Keyed { entry: record, .. }) = self.records.get(k) else {
                return true;
            };
            add(&mut self.shapes, shape_of(&record));
            self.try_rules(&record);
        }
        false
    }

    // Chases the sheet. Says whether it comes to rest.
    pub(crate) fn run(&mut self) -> bool {
        self.start();
        self.fire_all()
    }

    // The share of the rules that fired.
    pub(crate) fn share(&self) -> usize {
        let rules = self.lines.iter().filter(|line| line[0] == LETTER_B).count();
        nearest(self.fired.len(), rules)
    }
}
