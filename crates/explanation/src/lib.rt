// What the explaining program prints: the sentences, or a refusal.
#![tactic(auto)]

ghost use Rattle.std.specs.Prelude.{◌≤◌, length};
ghost use Rattle.report.specs.Report.{Filled, report_says};
ghost use Rattle.report.specs.Inner.Promises.{SheetLent};
ghost use Rattle.explanation.specs.Explanation.{Tells, ExplanationMeets};

// Explains a sheet's lines and puts what is to be printed; says how many bytes it has.
fn explanation_lines(lines: &[u32], text: &mut [u8]) -> usize
    requires { SheetLent lines.now × (299008 ≤ length text.old) }
    ensures { Filled (Tells lines.now) text.old result text.new }
{
    match explaining::explain(lines, text) {
        Ok(size) => size,
        Err(refusal) => {
            let said = explaining::refusal_numbers(refusal);
            report::put_refusal(said.number, said.line, text).unwrap()
        }
    }
}

// Reads a text, explains it and fills the output with what the explaining program prints: so many bytes, or none where less is lent than can be printed. Of lent output that is long enough only the bytes that the answer counts are changed; otherwise nothing is.
pub fn explain_text(text: &[u8], output: &mut [u8]) -> Option<usize>
    ensures { ExplanationMeets text.now output.old (report_says result) output.new }
{
    report::print_text(text, output, 299008, explanation_lines)
}
