// What the forecasting program prints: the three figures, or a refusal.
#![tactic(auto)]

ghost use Rattle.std.specs.Prelude.{◌≡◌, ◌+◌, ◌≤◌, length};
ghost use Rattle.columns.specs.Column.{put};
ghost use Rattle.forecasting.specs.Answer.{figure_of, figures_of};
ghost use Rattle.report.specs.Report.{Filled, report_says};
ghost use Rattle.report.specs.Inner.Promises.{SheetLent};
ghost use Rattle.outlook.specs.Outlook.{figure_column, figures_line, Foretells, OutlookMeets};

use forecasting::Figures;

// A figure in twelve places.
fn figure_column(figure: Option<u32>) -> [u8; 12]
    ensures { result ≡ figure_column (figure_of figure) }
{
    match figure {
        Some(n) => columns::wide_column(n),
        None => *b"      beyond",
    }
}

// Puts a figure in twelve places into a text at `at`.
fn put_figure(text: &mut [u8], at: usize, figure: Option<u32>)
    requires { at + 12 ≤ length text.old }
    ensures { text.new ≡ put text.old at (figure_column (figure_of figure)) }
{
    text[at..at + 12].copy_from_slice(&figure_column(figure));
}

// Puts the F line; says how many bytes it has.
fn fill_figures(f: Figures, text: &mut [u8]) -> usize
    requires { 38 ≤ length text.old }
    ensures { Filled (λ p. p ≡ figures_line (figures_of f)) text.old result text.new }
{
    text[0] = b'F';
    put_figure(text, 1, f.values);
    put_figure(text, 13, f.records);
    put_figure(text, 25, f.pairs);
    text[37] = 10;
    38
}

// Foretells of a sheet's lines and puts what is to be printed; says how many bytes it has.
fn outlook_lines(lines: &[u32], text: &mut [u8]) -> usize
    requires { SheetLent lines.now × (38 ≤ length text.old) }
    ensures { Filled (Foretells lines.now) text.old result text.new }
{
    match forecasting::forecast(lines) {
        Ok(figures) => fill_figures(figures, text),
        Err(refusal) => {
            let said = forecasting::refusal_numbers(refusal);
            report::put_refusal(said.number, said.line, text).unwrap()
        }
    }
}

// Reads a text, foretells of it and fills the output with what the forecasting program prints: so many bytes, or none where less is lent than can be printed. Of lent output that is long enough only the bytes that the answer counts are changed; otherwise nothing is.
pub fn forecast_text(text: &[u8], output: &mut [u8]) -> Option<usize>
    ensures { OutlookMeets text.now output.old (report_says result) output.new }
{
    report::print_text(text, output, 38, outlook_lines)
}
