// The loop in sentences: one sentence for each step of what Judge answers of an endless sheet.
#![tactic(auto)]

mod number;
mod sentence;
mod text;

ghost use Rattle.std.specs.Prelude.{◌≡◌, length};
ghost use Rattle.chase.specs.Judge.{shape_limit};
ghost use Rattle.sentences.specs.Explain.{ExplainMeets};
ghost use Rattle.explaining.specs.Answer.{explain_says, explain_refusal_number, explain_refusal_line, SameRefusal};

use judging::{JudgeRefusal, Verdict};
use sheet::RefusalNumbers;

// Why nothing is explained.
#[derive(Clone, Copy)]
pub enum ExplainRefusal {
    // Lent lines that are no sheet, with the first wrong line.
    LineWrong(usize),
    // The reachable records show more than 512 shapes.
    ShapesOver,
    // The sheet settles.
    SheetSettles,
    // The lent text is too short for the sentences.
    TextShort,
}

// A refusal of judging as one of explaining. Steps enough are lent, so the first is never given.
impl From<JudgeRefusal> for ExplainRefusal {
    ghost from_gives = { SameRefusal };

    fn from(refusal: JudgeRefusal) -> ExplainRefusal {
        match refusal {
            JudgeRefusal::StepsShort => ExplainRefusal::LineWrong(0),
            JudgeRefusal::LineWrong(line) => ExplainRefusal::LineWrong(line),
            JudgeRefusal::ShapesOver => ExplainRefusal::ShapesOver,
        }
    }
}

// Writes the sentences of an endless sheet into the lent text and answers how many bytes they have. A good call changes the bytes that it counts and nothing else; a refusal changes nothing.
pub fn explain(lines: &[u32], text: &mut [u8]) -> Result<usize, ExplainRefusal>
    ensures { ExplainMeets shape_limit lines.now text.old (explain_says result) text.new }
{
    let mut steps = [0u16; 20480];
    match judging::judge(lines, &mut steps)? {
        Verdict::Settles(_) => Err(ExplainRefusal::SheetSettles),
        Verdict::Endless(f) => text::write(lines, &steps, f.trail, f.trail + f.turns, text),
    }
}

// The paper's number and the line of a refusal; line 0 where none is named.
pub fn refusal_numbers(refusal: ExplainRefusal) -> RefusalNumbers
    ensures { (result.number ≡ explain_refusal_number refusal) × (result.line ≡ explain_refusal_line refusal) }
{
    match refusal {
        ExplainRefusal::LineWrong(line) => RefusalNumbers { number: 8, line },
        ExplainRefusal::ShapesOver => RefusalNumbers {
            number: 11,
            line: 0,
        },
        ExplainRefusal::SheetSettles => RefusalNumbers {
            number: 24,
            line: 0,
        },
        ExplainRefusal::TextShort => RefusalNumbers {
            number: 25,
            line: 0,
        },
    }
}
