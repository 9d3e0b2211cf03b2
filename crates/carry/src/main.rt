// The carrying program: it reads a sheet from standard input, or from the file that its argument names, carries its rules out and prints C with
// the counts of the records and the firings and R for each record; or N with the refusal's number and line. What it prints is `listing::carry_text`'s.
#![tactic(auto)]

// There is room for one byte more than the longest text: a longer one is seen by its first 32,769 bytes. The output has room for the longest that can be printed.
fn main(rt: HostRuntime) {
    let usage =
        b"usage: carry [FILE]\nCarries out the rules of the sheet in FILE, or in standard input where FILE is - or none is named.\n";
    console::run::<32769, 266260, _>(&rt, usage, listing::carry_text);
}
