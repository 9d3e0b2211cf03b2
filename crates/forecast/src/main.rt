// The forecasting program: it reads a sheet from standard input, or from the file that its argument names, and prints F with how many values, records, and
// pairs of rule and carried values its run may come to; or N with the refusal's number and line. What it prints is `outlook::forecast_text`'s.
#![tactic(auto)]

// There is room for one byte more than the longest text: a longer one is seen by its first 32,769 bytes. The output has room for the longest that can be printed.
fn main(rt: HostRuntime) {
    let usage =
        b"usage: forecast [FILE]\nForetells how many values, records and firings the sheet in FILE may come to, or that in standard input where FILE is - or none is named.\n";
    console::run::<32769, 38, _>(&rt, usage, outlook::forecast_text);
}
