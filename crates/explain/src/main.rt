// The explaining program: it reads a sheet from standard input, or from the file that its argument names, and prints a sentence for each step of an endless
// sheet's trail and loop; or N with the refusal's number and line. What it prints is `explanation::explain_text`'s.
#![tactic(auto)]

// There is room for one byte more than the longest text: a longer one is seen by its first 32,769 bytes. The output has room for the longest that can be printed.
fn main(rt: HostRuntime) {
    let usage =
        b"usage: explain [FILE]\nExplains in sentences why the sheet in FILE is endless, or that in standard input where FILE is - or none is named.\n";
    console::run::<32769, 299008, _>(&rt, usage, explanation::explain_text);
}
