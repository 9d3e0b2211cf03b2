// What the carrying program prints: how many records there are and how many firings made them, then every record; or a refusal.
#![tactic(auto)]

ghost use Rattle.std.specs.Prelude.{◌≡◌, [], ◌∷◌, ◌++◌, ◌+◌, ◌*◌, ◌≤◌, ◌<◌, length, take, drop};
ghost use Rattle.columns.specs.Column.{put};
ghost use Rattle.sheet.specs.Line.{render, text_of};
ghost use Rattle.rules.specs.Table.{SheetHeld, lines_in};
ghost use Rattle.report.specs.Lines.{line_text};
ghost use Rattle.report.specs.Report.{Filled, report_says};
ghost use Rattle.report.specs.Inner.Promises.{SheetLent};
ghost use Rattle.listing.specs.Listing.{letter_c, Carries, ListMeets};
ghost use Rattle.listing.specs.Inner.Records.{WidthsOf, width_of, line_of, records_to, Printable, AllPrintable, RecordsPut};

use running::Totals;
use sheet::LETTER_K;

// The width of each kind, from the K lines.
fn kind_widths(lines: &[u32]) -> [u32; 65]
    requires { SheetHeld lines.now }
    ensures { WidthsOf (lines_in lines.now) result }
{
    let mut widths = [0u32; 65];
    for line in lines.as_chunks::<8>().0 {
        if line[0] == LETTER_K {
            widths[line[1] as usize] = line[2];
        }
    }
    widths
}

// The numbers of a record.
fn columns_of(numbers: &[u32; 8]) -> [usize; 8]
    ensures { result ≡ numbers.now }
{
    numbers.map(|number| number as usize)
}

// The width of a record, by its kind.
fn width_of(widths: &[u32; 65], numbers: &[u32; 8]) -> usize
    requires { Printable widths.now numbers.now }
    ensures { result ≡ width_of widths.now numbers.now }
{
    widths[numbers[1] as usize] as usize
}

// Puts a record at `at`; says how many bytes it has.
fn fill_record(widths: &[u32; 65], numbers: &[u32; 8], text: &mut [u8], at: usize) -> usize
    requires { Printable widths.now numbers.now × (at + 65 ≤ length text.old) }
    ensures { (result ≡ length (render (line_of widths.now numbers.now))) × (result ≤ 65)
        × (text.new ≡ put text.old at (render (line_of widths.now numbers.now))) }
{
    let width = width_of(widths, numbers);
    let columns = columns_of(numbers);
    report::put_line(b'R', &columns[1..width + 2], text, at).unwrap()
}

// Puts the first `count` records after the C line, which has 20 bytes; says where they end.
fn fill_records(widths: &[u32; 65], records: &[u32], count: usize, text: &mut [u8]) -> usize
    requires { AllPrintable widths.now records.now count × (266260 ≤ length text.old) }
    ensures { RecordsPut widths.now records.now count text.old text.new result }
{
    let mut at: usize = 20;
    for record in &records.as_chunks::<8>().0[..count] {
        at += fill_record(widths, record, text, at);
    }
    at
}

// Puts the counts and the records; says how many bytes they have.
fn fill_totals(totals: Totals, widths: &[u32; 65], records: &[u32], text: &mut [u8]) -> usize
    requires { AllPrintable widths.now records.now totals.records × (totals.firings ≤ 99999999) × (266260 ≤ length text.old) }
    ensures { Filled (λ p. p ≡ line_text letter_c (totals.records ∷ totals.firings ∷ [])
        ++ text_of (records_to widths.now records.now totals.records)) text.old result text.new }
{
    let numbers = [totals.records, totals.firings];
    report::put_line(b'C', &numbers, text, 0).unwrap();
    fill_records(widths, records, totals.records, text)
}

// Carries the rules of a sheet's lines out and puts what is to be printed; says how many bytes it has.
fn list_lines(lines: &[u32], text: &mut [u8]) -> usize
    requires { SheetLent lines.now × (266260 ≤ length text.old) }
    ensures { Filled (Carries lines.now) text.old result text.new }
{
    let mut records = [0; 32768];
    match running::carry_out(lines, &mut records) {
        Ok(totals) => {
            let widths = kind_widths(lines);
            fill_totals(totals, &widths, &records, text)
        }
        Err(refusal) => {
            let said = running::refusal_numbers(refusal);
            report::put_refusal(said.number, said.line, text).unwrap()
        }
    }
}

// Reads a text, carries its rules out and fills the output with what the carrying program prints: so many bytes, or none where less is lent than can be printed. Of lent output that is long enough only the bytes that the answer counts are changed; otherwise nothing is.
pub fn carry_text(text: &[u8], output: &mut [u8]) -> Option<usize>
    ensures { ListMeets text.now output.old (report_says result) output.new }
{
    report::print_text(text, output, 266260, list_lines)
}
