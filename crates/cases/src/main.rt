// Tries document 01's sheets and the example sheets. What the judge says of each is compared with the figures that document 01 gives and with a
// small chase; the judge's steps are fired in that chase. Prints a line for each case.
//
// The input holds the cases one after the other, each as two lines of fixed length and then the sheet's text:
//   C, how many bytes the text has, how many steps are lent, a blank, the case's name in 40 places
//   V and the eight numbers of a verdict, or N and the two of a refusal and six blank columns; a blank column is a number that is not given
#![tactic(auto)]

mod case;
mod lines;
mod rule;
mod said;
mod small_chase;
mod table;
mod walk;

ghost use Rattle.std.specs.Prelude.{◌<◌, length};

use case::{Head, as_given, column_number};
use judging::Verdict;
use rule::Line;
use said::{Fate, Found, Said};
use small_chase::Chase;

// How many cases were tried, and how many of them differ.
#[derive(Clone, Copy)]
struct Tried {
    pub cases: usize,
    pub differ: usize,
}

// Prints what an answer differs from, if it does. What cannot be written is lost; where the last line cannot be written either, `print_tried` says why.
fn tell(rt: &impl Print, right: bool, what: &str) -> bool {
    if !right {
        let _ = print!(rt; ", DIFFERS from {what}");
    }
    right
}

// What the judge says.
fn judge(lines: &[u32], steps: &mut [u16]) -> Said {
    match judging::judge(lines, steps) {
        Ok(verdict) => Said::Judged(verdict),
        Err(why) => {
            let said = judging::refusal_numbers(why);
            Said::Refused {
                number: said.number,
                line: said.line,
            }
        }
    }
}

// What the chase finds. It is endless where it does not rest and has gone deep; its deepest generation is then 0, as the judge has it.
fn chased(chase: &Chase<'_>, rests: bool) -> Found {
    let deepest = chase.deepest();
    let (fate, deepest) = if rests {
        (Fate::Settles, deepest)
    } else if deepest < 5 {
        (Fate::Unsure, deepest)
    } else {
        (Fate::Endless, 0)
    };
    Found {
        fate,
        deepest,
        shapes: chase.shapes.len(),
        fired: chase.fired.len(),
        share: chase.share(),
    }
}

// Tells whether a verdict has the figures that the chase has, and whether its steps are right.
fn tell_verdict(rt: &impl Print, said: Found, chased: Found, right: bool) -> bool {
    let same = said == chased;
    if !same {
        let _ = print!(rt; ", DIFFERS from the chase:{chased}");
    }
    tell(rt, right, "what its steps must be") & same
}

// Compares an answer with the chase, which has room for more shapes than the judge takes: a verdict with all its numbers and its steps, refusal 11 with the
// count of shapes.
fn compare(rt: &impl Print, lines: &[Line], steps: &[u16], said: &Said) -> bool {
    let mut chase = Chase::new(lines);
    let rests = chase.run();
    let chased = chased(&chase, rests);
    let Said::Judged(verdict) = said else {
        return tell(rt, 512 < chased.shapes, "the chase");
    };
    let right = match verdict {
        Verdict::Settles(f) => walk::settled_right(&mut chase, steps, f),
        Verdict::Endless(f) => walk::endless_right(&mut chase, steps, f),
    };
    tell_verdict(rt, Found::from(verdict), chased, right)
}

// Prints an answer, and whether it is the one that the head of its case gives.
fn tell_answer(rt: &impl Print, head: &Head, said: &Said) -> bool {
    let _ = print!(rt; "{said}");
    tell(rt, as_given(head, said), "what is given")
}

// Tries the judge on lent lines. A refusal other than 11 needs no chase.
fn try_lines(rt: &impl Print, head: &Head, lines: &[u32], steps: &mut [u16]) -> bool {
    let said = judge(lines, steps);
    let right = tell_answer(rt, head, &said);
    match said {
        Said::Refused { number, .. } if number != 11 => right,
        _ => compare(rt, lines.as_chunks().0, steps, &said) & right,
    }
}

// Lends as many steps as the case says.
fn lend_steps(rt: &impl Print, head: &Head, lines: &[u32]) -> bool {
    let mut steps = [0; 20480];
    let count = column_number(&head[10..19]);
    if 4096 < count {
        return tell(rt, false, "the form of a case");
    }
    try_lines(rt, head, lines, &mut steps[..5 * count])
}

// Tries a sheet's text.
fn try_text(rt: &impl Print, head: &Head, text: &[u8]) -> bool {
    let mut lines = [0; 13104];
    match sheet::read(text, &mut lines) {
        Ok(count) => lend_steps(rt, head, console::front_lines(&lines, count)),
        Err(why) => {
            let said = sheet::refusal_numbers(why);
            let refused = Said::Refused {
                number: said.number,
                line: said.line,
            };
            tell_answer(rt, head, &refused)
        }
    }
}

// Tries a case: its sheet's text is at the front of what stands after its head.
fn try_case(rt: &impl Print, head: &Head, after: &[u8]) -> bool {
    let _ = rt.write_all(&head[20..60]);
    match after.get(..column_number(&head[1..10])) {
        Some(text) if head[0] == b'C' => {
            let walked = lines::walks_right(text);
            let walks = tell(rt, walked, "the lines of its text");
            try_text(rt, head, text) & walks
        }
        _ => tell(rt, false, "the form of a case"),
    }
}

// Tries the first case of the cases that are left. Says whether it is right, and which are left then.
fn try_first<'a>(rt: &impl Print, cases: &'a [u8]) -> (bool, &'a [u8])
    requires { 0 < length cases.now }
    ensures { length result.1.now < length cases.now }
{
    let Some((head, after)) = cases.split_first_chunk() else {
        return (tell(rt, false, "the form of a case"), &[]);
    };
    let size = column_number(&head[1..10]) % 100000000;
    (try_case(rt, head, after), after.get(size..).unwrap_or(&[]))
}

impl Tried {
    // Ends the line of a case and counts it.
    fn count(&mut self, rt: &impl Print, right: bool) {
        self.cases = self.cases.saturating_add(1);
        if right {
            let _ = println!(rt; ", as it must be");
        } else {
            let _ = println!(rt);
            self.differ = self.differ.saturating_add(1);
        }
    }
}

// Tries all cases.
fn try_cases(rt: &impl Print, cases: &[u8], tried: &mut Tried) {
    let mut left = cases;
    // A `while`, for it has no index: what is left goes down by what each case takes.
    while !left.is_empty() {
        let (right, after) = try_first(rt, left);
        tried.count(rt, right);
        left = after;
    }
}

// Tries what Pattern says of a record.
fn try_pattern(rt: &impl Print, name: &str, numbers: &[u32], given: Option<usize>) -> bool {
    let found = sheet::pattern(numbers);
    let _ = match found {
        Some(number) => print!(rt; "pattern of {name:29} number {number}"),
        None => print!(rt; "pattern of {name:29} refused with 10, line 0"),
    };
    tell(rt, found == given, "what is given")
}

fn try_patterns(rt: &impl Print, tried: &mut Tried) {
    tried.count(rt, try_pattern(rt, "(0, 0)", &[0, 0], Some(3)));
    tried.count(rt, try_pattern(rt, "(7, 0, 7, 0)", &[7, 0, 7, 0], Some(16)));
    tried.count(rt, try_pattern(rt, "no number", &[], None));
}

// Prints how many cases were tried, and how many of them differ. Where that cannot be written, the reason is written to standard error.
fn print_tried(rt: &(impl Print + Eprint), tried: &Tried) {
    let _ = print!(rt; "{} cases, ", tried.cases);
    if tried.differ == 0 {
        console::print(rt, b"all match\n");
    } else {
        let _ = print!(rt; "{}", tried.differ);
        console::print(rt, b" DIFFER\n");
    }
}

// Tries all sheets and the patterns, and prints what is found.
fn try_all(rt: &(impl Print + Eprint), sheets: &[u8]) {
    let mut tried = Tried {
        cases: 0,
        differ: 0,
    };
    try_cases(rt, sheets, &mut tried);
    try_patterns(rt, &mut tried);
    print_tried(rt, &tried);
}

fn main(rt: HostRuntime) {
    let mut cases = [0; 196608];
    let usage =
        b"usage: cases [FILE]\nTries the cases in FILE, or in standard input where FILE is - or none is named.\n";
    if let Some(size) = console::read_input(&rt, usage, &mut cases) {
        try_all(&rt, console::front(&cases, size));
    }
}
