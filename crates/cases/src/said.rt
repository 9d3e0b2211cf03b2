// What is said of a sheet, and how it is printed.
use judging::{Figures, Verdict};
use std::fmt;
use std::fmt::{Display, Formatter};

// Whether a sheet comes to rest.
#[derive(Clone, Copy, PartialEq, Eq)]
pub(crate) enum Fate {
    Settles,
    Endless,
    // The tables are full before that shows.
    Unsure,
}

// The figures that the chase finds too.
#[derive(Clone, Copy, PartialEq, Eq)]
pub(crate) struct Found {
    pub fate: Fate,
    pub deepest: usize,
    pub shapes: usize,
    pub fired: usize,
    pub share: usize,
}

// An answer: a verdict with its figures, or a refusal with its number and line.
#[derive(Clone, Copy)]
pub(crate) enum Said {
    Judged(Verdict),
    Refused { number: usize, line: usize },
}

// Whether the sheet of a verdict comes to rest, and the figures.
fn parts(verdict: &Verdict) -> (Fate, &Figures) {
    match verdict {
        Verdict::Settles(f) => (Fate::Settles, f),
        Verdict::Endless(f) => (Fate::Endless, f),
    }
}

// What a verdict says of the figures that the chase finds too.
impl From<&Verdict> for Found {
    fn from(verdict: &Verdict) -> Found {
        let (fate, f) = parts(verdict);
        Found {
            fate,
            deepest: f.deepest,
            shapes: f.shapes,
            fired: f.fired,
            share: f.share,
        }
    }
}

impl Said {
    // The letter and the numbers of a line that gives this answer.
    pub(crate) fn columns(&self) -> (u8, [usize; 8]) {
        match self {
            Said::Judged(verdict) => {
                let (fate, f) = parts(verdict);
                let number = if fate == Fate::Settles { 1 } else { 2 };
                let numbers = [
                    number, f.deepest, f.shapes, f.fired, f.share, f.row, f.trail, f.turns,
                ];
                (b'V', numbers)
            }
            Said::Refused { number, line } => (b'N', [*number, *line, 0, 0, 0, 0, 0, 0]),
        }
    }
}

impl Display for Found {
    fn fmt<W: fmt::Write>(&self, f: &mut Formatter<W>) -> fmt::Result {
        let fate = match self.fate {
            Fate::Settles => "settles",
            Fate::Endless | Fate::Unsure => "endless",
        };
        let Found {
            deepest,
            shapes,
            fired,
            share,
            ..
        } = self;
        write!(
            f,
            " {fate}, deepest {deepest}, shapes {shapes}, fired {fired}, share {share}"
        )
    }
}

impl Display for Said {
    fn fmt<W: fmt::Write>(&self, f: &mut Formatter<W>) -> fmt::Result {
        match self {
            Said::Judged(verdict) => {
                let Figures {
                    row,
                    trail,
                    turns,
                    ..
                } = parts(verdict).1;
                let found = Found::from(verdict);
                write!(f, "{found}, row {row}, trail {trail}, loop {turns}")
            }
            Said::Refused { number, line } => write!(f, " refused with {number}, line {line}"),
        }
    }
}
