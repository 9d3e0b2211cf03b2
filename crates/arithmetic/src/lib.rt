// Arithmetic on counts.
#![tactic(auto)]

ghost use Rattle.std.specs.Prelude.{◌≡◌, ◌+◌, ◌*◌};
ghost use Rattle.chase.specs.Counting.{share as share_of};
ghost use Rattle.arithmetic.specs.Capped.{capped, polynomial as polynomial_of};

// One more than the largest u32.
const CAP: u64 = 4294967296;

// 100 × part / whole to the nearest whole number, a half to the even neighbour; 0 where the whole is 0.
pub fn share(part: u32, whole: u32) -> usize
    ensures { result ≡ share_of part whole }
{
    if whole == 0 {
        return 0;
    }
    let by = whole as usize;
    let hundred = 100 * (part as usize);
    let down = hundred / by;
    let twice_rest = 2 * (hundred % by);
    if twice_rest < by {
        return down;
    }
    if by < twice_rest {
        return down + 1;
    }
    if down % 2 == 0 {
        return down;
    }
    down + 1
}

// A sum that stops at the cap.
pub fn plus_capped(a: u64, b: u64) -> u64
    ensures { result ≡ capped (a + b) }
{
    a.saturating_add(b).min(CAP)
}

// A product that stops at the cap.
pub fn times_capped(a: u64, b: u64) -> u64
    ensures { result ≡ capped (a * b) }
{
    a.saturating_mul(b).min(CAP)
}

// The value of a polynomial at t, stopped at the cap. The coefficient of power 0 comes first.
pub fn polynomial(coefficients: &[u64], t: u64) -> u64
    ensures { result ≡ capped (polynomial_of coefficients.now t) }
{
    let mut sum: u64 = 0;
    for &coefficient in coefficients.iter().rev() {
        sum = plus_capped(coefficient, times_capped(t, sum));
    }
    sum
}
