// Shapes as numbers: 278 × (kind − 1) + (number of the pattern − 1). Whether a rule fires on a shape, and the shape that it makes.
ghost use Rattle.std.specs.Prelude.{◌≡◌, ◌+◌, ◌-◌, ◌*◌, ◌≤◌, ◌<◌, length, get_or};
ghost use Rattle.patterns.specs.Pattern.{numbers_pattern};
ghost use Rattle.rules.specs.Table.{KindFits, TableFits, row_bytes, rule_in, first_place};
ghost use Rattle.judging.specs.Inner.Codes.{CodeIs, FiresOn, MadeOf, DigitsFit, made_number};
ghost use Rattle.judging.specs.Inner.Firing.{ByKind, Place, NextFires};

// The number of the shape with a kind and the pattern of the numbers.
pub(crate) fn shape_code(kind: u32, numbers: &[u32]) -> usize
    requires { KindFits kind × (1 ≤ length numbers.now) × (length numbers.now ≤ 6) }
    ensures { CodeIs kind (numbers_pattern numbers.now) result }
{
    match sheet::pattern(numbers) {
        Some(n) => 278 * (kind as usize - 1) + n - 1,
        None => 0,
    }
}

// Byte `i` of rule `r`.
pub(crate) fn rule_byte(table: &[u8; 16384], r: usize, i: usize) -> usize
    requires { (length table.now ≡ 16384) × (r < 256) × (i < 64) }
    ensures { (result ≡ get_or (row_bytes table.now r) i 0) × (result < 256) }
{
    usize::from(table[64 * r + i])
}

// The field in which the mark of field `i` of rule `r` stands first.
fn first_field(table: &[u8; 16384], rules: usize, r: usize, i: usize) -> usize
    requires { TableFits table.now rules × (r < rules) × (i < get_or (row_bytes table.now r) 1 0) }
    ensures { (result ≡ first_place (get_or (rule_in (row_bytes table.now r)).marks i 0) (rule_in (row_bytes table.now r)).marks - 1) × (result < 6) }
{
    let mark = rule_byte(table, r, 2 + i);
    rule_byte(table, r, 8 + mark) - 1
}

// Whether rule `r` fires on a record of this kind and pattern: it has as many fields as the rule has marks, and each has the digit of its mark's first place.
fn fires(table: &[u8; 16384], rules: usize, r: usize, kind: usize, digits: [u8; 6]) -> bool
    requires { TableFits table.now rules × (r < rules) × DigitsFit digits }
    ensures { FiresOn (rule_in (row_bytes table.now r)) kind digits result }
{
    if rule_byte(table, r, 0) != kind {
        return false;
    }
    let width = rule_byte(table, r, 1);
    if digits[width - 1] == 0 {
        return false;
    }
    if width < 6 && digits[width] != 0 {
        return false;
    }
    (0..width).all(|i| digits[i] == digits[first_field(table, rules, r, i)])
}

// The first rule after place `p` that fires on a record of this kind and pattern. A place is a kind, before all rules, or 65 + the rule of this kind that it comes after.
pub(crate) fn next_fire(
    table: &[u8; 16384],
    rules: usize,
    kinds: &[u16; 321],
    p: usize,
    kind: usize,
    digits: [u8; 6],
) -> Option<usize>
    requires { TableFits table.now rules × ByKind table.now rules kinds.now × Place table.now rules kind p × DigitsFit digits }
    ensures { NextFires table.now rules (p - 64) kind digits result }
{
    let mut q = usize::from(kinds[p]);
    // This walks the chain of the rules of one kind.
    while q < rules {
        if fires(table, rules, q, kind, digits) {
            return Some(q);
        }
        q = usize::from(kinds[65 + q]);
    }
    None
}

// The number in a field of a made record: the digit that its mark has, or a number above all digits for a fresh mark.
fn made_number(table: &[u8; 16384], rules: usize, r: usize, mark: usize, digits: [u8; 6]) -> u32
    requires { TableFits table.now rules × (r < rules) × (mark ≤ 12) × DigitsFit digits }
    ensures { result ≡ made_number (rule_in (row_bytes table.now r)).marks digits mark }
{
    let place = rule_byte(table, r, 8 + mark);
    if place == 0 {
        return (rule_byte(table, r, 1) + mark + 1) as u32;
    }
    u32::from(digits[place - 1])
}

// The shape that H line `h` of rule `r` makes of a record of this pattern.
pub(crate) fn made(table: &[u8; 16384], rules: usize, r: usize, h: usize, digits: [u8; 6]) -> usize
    requires { TableFits table.now rules × (r < rules) × (h < get_or (row_bytes table.now r) 28 0) × DigitsFit digits }
    ensures { MadeOf (rule_in (row_bytes table.now r)) h digits result }
{
    let at = 32 + 8 * h;
    let width = rule_byte(table, r, at + 1);
    let mut room = [0u32; 6];
    let numbers = &mut room[..width];
    for (i, number) in numbers.iter_mut().enumerate() {
        *number = made_number(table, rules, r, rule_byte(table, r, at + 2 + i), digits);
    }
    shape_code(rule_byte(table, r, at) as u32, numbers)
}
