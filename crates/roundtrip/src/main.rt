// Reads standard input, or the file that its argument names, as a sheet, writes it back and prints the text; or N with the refusal's number and line.
//
// It lends 1,540 lines, fewer than the longest text can have, so that refusal 7 can be seen.
#![tactic(auto)]

ghost use Rattle.std.specs.Prelude.{◌≤◌, length};

use sheet::Refusal;

// Puts N, then the number and the line in columns, and answers how many bytes that are. A text has far fewer lines than a column can count.
fn put_refusal(refusal: Refusal, output: &mut [u8]) -> usize
    requires { 20 ≤ length output.old }
{
    let said = sheet::refusal_numbers(refusal);
    let line = &mut output[..20];
    line.copy_from_slice(b"N                  \n");
    columns::put(line, 1, said.number as u32);
    columns::put(line, 10, (said.line % 100000000) as u32);
    20
}

// Reads a text as a sheet and writes its lines as text; answers how many bytes that has.
fn write_back(text: &[u8], output: &mut [u8]) -> Result<usize, Refusal> {
    let mut lines = [0; 12320];
    let count = sheet::read(text, &mut lines)?;
    sheet::write(console::front_lines(&lines, count), output)
}

// Writes a text back; of a refusal, its line.
fn answer(text: &[u8], output: &mut [u8]) -> Option<usize>
    requires { 20 ≤ length output.old }
{
    match write_back(text, output) {
        Ok(size) => Some(size),
        Err(refusal) => Some(put_refusal(refusal, output)),
    }
}

// There is room for one byte more than the longest text: a longer one is seen by its first 32,769 bytes.
fn main(rt: HostRuntime) {
    let usage =
        b"usage: roundtrip [FILE]\nReads the sheet in FILE, or in standard input where FILE is - or none is named, and writes it back.\n";
    console::run::<32769, 32768, _>(&rt, usage, answer);
}
