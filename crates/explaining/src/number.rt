// Numbers in decimal, unpadded.
ghost use Rattle.std.specs.Prelude.{◌≡◌, ◌+◌, ◌≤◌, length};
ghost use Rattle.sentences.specs.Decimal.{decimal};
ghost use Rattle.explaining.specs.Inner.Puts.{Puts};

// How many digits `n` has.
pub(crate) fn size(n: u32) -> usize
    ensures { (result ≡ length (decimal n)) × (result ≤ 10) }
{
    if n == 0 {
        return 1;
    }
    n.ilog10() as usize + 1
}

// Puts `n` at `at` and answers where it ends.
pub(crate) fn put(text: &mut [u8], at: usize, n: u32) -> usize
    requires { at + length (decimal n) ≤ length text.old }
    ensures { Puts text.old at (decimal n) result text.new }
{
    if n < 10 {
        text[at] = 48 + (n % 10) as u8;
        return at + 1;
    }
    let last = put(text, at, n / 10);
    text[last] = 48 + (n % 10) as u8;
    last + 1
}
