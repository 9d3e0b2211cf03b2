// A line walker: it keeps the lent text and the offset of the next line.
// `line_end` and `line_at` are its core, over the text and a number; the others are thin over the struct.
#![tactic(auto)]

ghost use Rattle.std.specs.Prelude.{◌≡◌, true, ◌+◌, ◌≤◌, length};
ghost use Rattle.walker.specs.Walk.{line_end, HandsOut};
ghost use Rattle.walker.specs.Inner.Clear.{Clear};

// The text, and where the next line begins.
#[derive(Drop)]
pub struct Walker<'a> {
    pub text: &'a [u8],
    pub at: usize,
}

// Whether none of the eight bytes at `i` is byte 10. The loop always makes all its turns, so it compiles to one wide comparison.
fn clear8(text: &[u8], i: usize) -> bool
    requires { i + 8 ≤ length text.now }
    ensures { result ≡ true → Clear text.now i (i + 8) }
{
    let mut clear = true;
    for &byte in &text[i..i + 8] {
        clear &= byte != 10;
    }
    clear
}

// A place at or after `at` with no byte 10 between them: the first of eight bytes that hold one, or where fewer than 16 are left.
fn skip(text: &[u8], at: usize) -> usize
    ensures { Clear text.now at result }
{
    if text.len() < 16 {
        return at;
    }
    let last = text.len() - 16;
    let mut i = at;
    // A `while`: two groups of eight bytes a turn, on the path that each byte of a text takes; it stops at one of them, and says where.
    while i <= last {
        if !clear8(text, i) {
            return i;
        }
        if !clear8(text, i + 8) {
            return i + 8;
        }
        i += 16;
    }
    i
}

// Where the line at `at` ends, after its byte 10; `at` itself where there is none.
fn line_end(text: &[u8], at: usize) -> usize
    ensures { result ≡ line_end text.now at }
{
    for i in skip(text, at)..text.len() {
        if text[i] == 10 {
            return i + 1;
        }
    }
    at
}

// The line at `at`, with its byte 10; empty where there is none.
fn line_at<'a>(text: &'a [u8], at: usize) -> &'a [u8]
    ensures { HandsOut text.entry at result }
{
    let end = line_end(text, at);
    if at < end {
        return &text[at..end];
    }
    &text[0..0]
}

// A walker at the start of the text.
pub fn new<'a>(text: &'a [u8]) -> Walker<'a>
    ensures { (result.text ≡ text.entry) × (result.at ≡ 0) }
{
    Walker { text, at: 0 }
}

// The line that is next; empty where there is none.
pub fn line<'a>(w: Walker<'a>) -> &'a [u8]
    ensures { HandsOut w.entry.text w.entry.at result }
{
    line_at(w.text, w.at)
}

// Hands out the line that is next and moves past it. Where there is none it hands out an empty part, and the walker is as it was.
pub fn next<'s, 'a>(w: &'s mut Walker<'a>) -> &'a [u8]
    ensures { HandsOut w.old.text w.old.at result
        × (w.new.text ≡ w.old.text)
        × (w.new.at ≡ line_end w.old.text.now w.old.at) }
{
    let text = w.text;
    let at = w.at;
    w.at = line_end(text, at);
    line_at(text, at)
}

// The line at `at` from plain parameters, by a walker that stands there.
pub fn line_from<'a>(text: &'a [u8], at: usize) -> &'a [u8]
    ensures { HandsOut text.entry at result }
{
    line(Walker { text, at })
}

// Where a walker made over the text and set to `at` stands once it has moved.
pub fn moved_from(text: &[u8], at: usize) -> usize
    ensures { result ≡ line_end text.now at }
{
    let mut w = new(text);
    w.at = at;
    next(&mut w);
    w.at
}
