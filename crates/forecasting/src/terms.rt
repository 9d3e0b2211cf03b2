// The terms of the three sums by their powers: so many kinds of each width, so many rules and so many fresh marks for each count of carried marks.
ghost use Rattle.std.specs.Prelude.{◌≡◌};
ghost use Rattle.rules.specs.Table.{SheetHeld, lines_in};
ghost use Rattle.forecasting.specs.Inner.Terms.{KindsCounted, RulesCounted};

use crate::marks::rule_marks;
use sheet::{LETTER_B, LETTER_K};

// For each count of carried marks, the fresh marks of the rules that carry so many, and how many rules do.
// Two arrays and not one of pairs: `polynomial` reads one at a time.
#[derive(Clone, Copy)]
pub(crate) struct RuleTerms {
    pub fresh: [u64; 7],
    pub pairs: [u64; 7],
}

// How many kinds have each width.
pub(crate) fn kind_terms(lines: &[u32]) -> [u64; 7]
    requires { SheetHeld lines.now }
    ensures { KindsCounted (lines_in lines.now) result }
{
    let mut kinds = [0u64; 7];
    for line in lines.as_chunks::<8>().0 {
        if line[0] == LETTER_K {
            kinds[line[2] as usize] += 1;
        }
    }
    kinds
}

// The fresh marks and the rules by carried marks.
pub(crate) fn rule_terms(lines: &[u32]) -> RuleTerms
    requires { SheetHeld lines.now }
    ensures { RulesCounted (lines_in lines.now) result }
{
    let mut fresh = [0u64; 7];
    let mut pairs = [0u64; 7];
    for (n, line) in lines.as_chunks::<8>().0.iter().enumerate() {
        if line[0] == LETTER_B {
            let marks = rule_marks(lines, n);
            let carried = marks.carried;
            fresh[carried] += marks.fresh as u64;
            pairs[carried] += 1;
        }
    }
    RuleTerms { fresh, pairs }
}
