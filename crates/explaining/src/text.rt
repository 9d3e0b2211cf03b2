// The sentences of lent steps, one after the other.
ghost use Rattle.std.specs.Prelude.{◌≡◌, ◌+◌, ◌*◌, ◌≤◌, ◌<◌, ltb, length};
ghost use Rattle.columns.specs.Column.{put as put_at};
ghost use Rattle.rules.specs.Table.{SheetHeld, rules_in};
ghost use Rattle.sentences.specs.Inner.Naming.{Names};
ghost use Rattle.explaining.specs.Inner.Text.{sentence_for, Starts, KindsAre, NamedTo, step_at, sentence_of, text_to, TextWritten, Tells, text_told};

use crate::sentence::Sentence;
use crate::{ExplainRefusal, sentence};
use sheet::LETTER_B;

// The kinds of a rule's B line and of one of its H lines.
#[derive(Clone, Copy)]
struct Kinds {
    body: u32,
    made: u32,
}

// Where each rule begins: the number of its B line, counted from 0. Its H lines come right after it.
fn rule_starts(lines: &[u32]) -> [usize; 256]
    requires { SheetHeld lines.now }
    ensures { Starts lines.now result }
{
    let mut starts: [usize; 256] = [0; 256];
    let mut count: usize = 0;
    for (n, line) in lines.as_chunks::<8>().0.iter().enumerate() {
        if line[0] == LETTER_B {
            starts[count] = n;
            count += 1;
        }
    }
    starts
}

// What is told: lent lines, where their rules begin, and so many lent steps, of which the first `trail` are the trail's.
#[derive(Drop)]
struct Told<'a> {
    lines: &'a [u32],
    starts: [usize; 256],
    steps: &'a [u16],
    trail: usize,
    count: usize,
}

impl Told<'_> {
    // The kinds of a rule and of one of its H lines, both counted from 1.
    fn kinds(&self, rule: usize, head: usize) -> Kinds
        requires { Tells self.now × Names (rules_in self.now.lines.now) rule head }
        ensures { KindsAre (rules_in self.now.lines.now) rule head result.body result.made }
    {
        let start = self.starts[rule - 1];
        Kinds {
            body: self.lines[8 * start + 1],
            made: self.lines[8 * (start + head) + 1],
        }
    }

    // The numbers of the sentence of step `i`, counted from 0.
    fn sentence(&self, i: usize) -> Sentence
        requires { Tells self.now × (i < self.now.count) }
        ensures { sentence_for result ≡ sentence_of (rules_in self.now.lines.now) (ltb self.now.trail (i + 1)) (step_at self.now.steps.now i) }
    {
        let rule = self.steps[5 * i];
        let head = self.steps[5 * i + 1];
        let kinds = self.kinds(usize::from(rule), usize::from(head));
        Sentence {
            rule: u32::from(rule),
            head: u32::from(head),
            body: kinds.body,
            from: u32::from(self.steps[5 * i + 2]),
            made: kinds.made,
            to: u32::from(self.steps[5 * i + 3]),
            fresh: u32::from(self.steps[5 * i + 4]),
            in_loop: self.trail < i + 1,
        }
    }

    // How many bytes the sentences have.
    fn size(&self) -> usize
        requires { Tells self.now }
        ensures { result ≡ length (text_told self.now) }
    {
        let mut size: usize = 0;
        for i in 0..self.count {
            size += sentence::size(self.sentence(i));
        }
        size
    }

    // Puts the sentences at the front of the lent text.
    fn put(&self, text: &mut [u8])
        requires { Tells self.now × (length (text_told self.now) ≤ length text.old) }
        ensures { text.new ≡ put_at text.old 0 (text_told self.now) }
    {
        let mut at: usize = 0;
        for k in 0..self.count {
            at = sentence::put(text, at, self.sentence(k));
        }
    }
}

// Writes the sentences of so many lent steps, of which the first `trail` are the trail's, where they fit; where they don't, the lent text is as before.
pub(crate) fn write(
    lines: &[u32],
    steps: &[u16],
    trail: usize,
    count: usize,
    text: &mut [u8],
) -> Result<usize, ExplainRefusal>
    requires { SheetHeld lines.now × (5 * count ≤ length steps.now) × (count ≤ 4096) × NamedTo (rules_in lines.now) steps.now count }
    ensures { TextWritten (text_to (rules_in lines.now) steps.now trail count) text.old result text.new }
{
    let told = Told {
        lines,
        starts: rule_starts(lines),
        steps,
        trail,
        count,
    };
    let size = told.size();
    if text.len() < size {
        return Err(ExplainRefusal::TextShort);
    }
    told.put(text);
    Ok(size)
}
