// One sentence, from its numbers.
ghost use Rattle.std.specs.Prelude.{◌≡◌, ◌++◌, ◌+◌, ◌≤◌, length};
ghost use Rattle.sentences.specs.Decimal.{decimal};
ghost use Rattle.sentences.specs.Sentence.{manner as manner_of, place as place_of};
ghost use Rattle.explaining.specs.Inner.Puts.{Puts};
ghost use Rattle.explaining.specs.Inner.Text.{sentence_for};

use crate::number;

// The numbers of a sentence: those of a step, the kinds of its rule's B line and H line, and whether it is the loop's.
#[derive(Clone, Copy)]
pub struct Sentence {
    pub rule: u32,
    pub head: u32,
    pub body: u32,
    pub from: u32,
    pub made: u32,
    pub to: u32,
    pub fresh: u32,
    pub in_loop: bool,
}

// Puts a word at `at` and answers where it ends.
fn put_word(text: &mut [u8], at: usize, word: &[u8]) -> usize
    requires { at + length word.now ≤ length text.old }
    ensures { Puts text.old at word.now result text.new }
{
    let end = at + word.len();
    text[at..end].copy_from_slice(word);
    end
}

// Puts words and a number after them.
fn put_part(text: &mut [u8], at: usize, words: &[u8], n: u32) -> usize
    requires { at + length words.now + length (decimal n) ≤ length text.old }
    ensures { Puts text.old at (words.now ++ decimal n) result text.new }
{
    let next = put_word(text, at, words);
    number::put(text, next, n)
}

// Whether a step is fresh, carried or reaching.
fn manner(from: u32, to: u32, fresh: u32) -> &'static [u8]
    ensures { result.now ≡ manner_of from to fresh }
{
    if fresh != 0 {
        return b", fresh";
    }
    if from != 0 || to != 0 {
        return b", carried";
    }
    b", reaching"
}

// Whether a step is the loop's or the trail's, and the sentence's end.
fn place(in_loop: bool) -> &'static [u8]
    ensures { result.now ≡ place_of in_loop }
{
    if in_loop { b", loop.\n" } else { b", trail.\n" }
}

// How many bytes a sentence has; the words before its numbers have 44.
pub(crate) fn size(s: Sentence) -> usize
    ensures { (result ≡ length (sentence_for s)) × (result ≤ 123) }
{
    let line = 44 + number::size(s.rule) + number::size(s.head);
    let fields = number::size(s.body)
        + number::size(s.from)
        + number::size(s.made)
        + number::size(s.to);
    line + fields + manner(s.from, s.to, s.fresh).len() + place(s.in_loop).len()
}

// Puts a sentence at `at` and answers where it ends.
pub(crate) fn put(text: &mut [u8], at: usize, s: Sentence) -> usize
    requires { at + length (sentence_for s) ≤ length text.old }
    ensures { Puts text.old at (sentence_for s) result text.new }
{
    let rule = put_part(text, at, b"Rule ", s.rule);
    let head = put_part(text, rule, b", H line ", s.head);
    let body = put_part(text, head, b": kind ", s.body);
    let from = put_part(text, body, b" field ", s.from);
    let made = put_part(text, from, b" to kind ", s.made);
    let to = put_part(text, made, b" field ", s.to);
    let end = put_word(text, to, manner(s.from, s.to, s.fresh));
    put_word(text, end, place(s.in_loop))
}
