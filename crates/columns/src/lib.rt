// Columns: the nine bytes that hold a number.
#![tactic(auto)]

ghost use Rattle.std.specs.Prelude.{◌≡◌, ◌≤◌, length, take, drop};
ghost use Rattle.columns.specs.Column.{place_byte, justified, wide_column, column_for, column_put, in_form, number_in, number_says};

// The byte at a place that is not the last, where `rest` is the number without the digits to the right of the place.
fn place(rest: u32) -> u8
    ensures { result ≡ place_byte rest }
{
    if rest == 0 {
        return b' ';
    }
    48 + (rest % 10) as u8
}

// The digits of `n` right-justified in N places, blanks before them. With a way out at the first blank it is longer code.
fn justified<const N: usize>(n: u32) -> [u8; N]
    requires { 1 ≤ N }
    ensures { result ≡ justified N n }
{
    let mut bytes = [b' '; N];
    bytes[N - 1] = 48 + (n % 10) as u8;
    let mut rest = n / 10;
    for at in (0..N - 1).rev() {
        bytes[at] = place(rest);
        rest /= 10;
    }
    bytes
}

// The digits of `n` right-justified in twelve places, blanks before them. A u32 has up to ten digits.
pub fn wide_column(n: u32) -> [u8; 12]
    ensures { result ≡ wide_column n }
{
    justified(n)
}

// The column of `n`; nine blanks, which are no number's column, where `n` is over 99,999,999.
pub fn column(n: u32) -> [u8; 9]
    ensures { result ≡ column_for n }
{
    if 99999999 < n {
        return [b' '; 9];
    }
    justified(n)
}

// Puts the nine bytes of `column(n)` into a text at `at`. Where there is no room for nine, it changes nothing.
pub fn put(text: &mut [u8], at: usize, n: u32)
    ensures { text.new ≡ column_put text.old at n }
{
    if text.len() < 9 || text.len() - 9 < at {
        return;
    }
    let bytes = column(n);
    // By copy_from_slice it takes some ten instructions more.
    for i in 0..9 {
        text[at + i] = bytes[i];
    }
}

// The number whose column these nine bytes are; None where they are no number's column.
fn read_column(bytes: &[u8]) -> Option<u32>
    requires { length bytes.now ≡ 9 }
    ensures { number_says result ≡ in_form (number_in bytes.now) }
{
    if bytes[0] != b' ' {
        return None;
    }
    let mut n: u32 = 0;
    for &b in &bytes[1..8] {
        if b == b' ' {
            if n != 0 {
                return None;
            }
        } else {
            if b < 48 {
                return None;
            }
            if 57 < b {
                return None;
            }
            n = 10 * n + u32::from(b - 48);
            if n == 0 {
                return None;
            }
        }
    }
    let last = bytes[8];
    if last < 48 {
        return None;
    }
    if 57 < last {
        return None;
    }
    Some(10 * n + u32::from(last - 48))
}

// The number whose column the nine bytes at `at` are; None where they are no number's column, or fewer than nine.
pub fn number_at(s: &[u8], at: usize) -> Option<u32>
    ensures { number_says result ≡ in_form (number_in (take 9 (drop at s.now))) }
{
    if s.len() < 9 || s.len() - 9 < at {
        return None;
    }
    read_column(&s[at..at + 9])
}
