// The judging program: it reads a sheet from standard input, or from the file that its argument names, and prints V with the verdict and its
// figures and S for each step of the trail and the loop; or N with the refusal's number and line. What it prints is `report::judge_text`'s.
#![tactic(auto)]

// There is room for one byte more than the longest text: a longer one is seen by its first 32,769 bytes. The output has room for the longest that can be printed.
fn main(rt: HostRuntime) {
    let usage =
        b"usage: judge [FILE]\nJudges the sheet in FILE, or in standard input where FILE is - or none is named.\n";
    console::run::<32769, 192586, _>(&rt, usage, report::judge_text);
}
