// How many different values the table has; each 0, which is not given, is one of its own.
ghost use Rattle.std.specs.Prelude.{◌≡◌, [], ◌∷◌, ◌+◌, ◌<◌, ◌≤◌, ◌↔◌, List, ℕ, length, take, IsTrue};
ghost use Rattle.std.proofs.Math.Decide.{ℕ_discrete};
ghost use Rattle.patterns.specs.Lists.{In};
ghost use Rattle.patterns.specs.Pattern.{add as add_to, add_all as add_all_to};
ghost use Rattle.carrying.specs.Carrying.{zeros as zeros_in};
ghost use Rattle.rules.specs.Table.{SheetHeld, lines_in};
ghost use Rattle.growth.specs.Forecast.{first_t};
ghost use Rattle.forecasting.specs.Inner.Values.{bucket_of, Stored, ValuesAre};

use sheet::{LETTER_K, LETTER_R};
use std::marker::Model;

// Different values, found by a hash: where the chain of each bucket begins, and where each place leads. A place in a chain counts from 1; 0 ends it.
#[derive(Drop)]
struct Values {
    // Room for the values of 1,024 rows of six.
    held: [u32; 6144],
    heads: [u16; 4096],
    next: [u16; 6144],
    // What the hash multiplies by.
    by: usize,
    count: usize,
}

// Clauses see the values that are held, in the order in which they came.
impl Model for Values {
    ghost Value = { List ℕ };

    ghost view = { λ v. take v.count v.held };

    ghost invariant = { λ v. Stored v.by v.held v.heads v.next v.count };
}

impl Values {
    // How many there are.
    fn len(&self) -> usize
        ensures { result ≡ length self.now }
    {
        self.count
    }

    // Whether a value is there.
    fn has(&self, x: u32) -> bool
        ensures { IsTrue result ↔ In x self.now }
    {
        let mut at = self.heads[bucket(self.by, x)] as usize;
        // A `while`, for a chain has no index: each place says the next.
        while at != 0 {
            if self.held[at - 1] == x {
                return true;
            }
            at = self.next[at - 1] as usize;
        }
        false
    }

    // Adds a value unless it is there.
    fn add(&mut self, x: u32)
        requires { length self.old < 6144 }
        ensures { self.new ≡ add_to ℕ_discrete x self.old }
    {
        if self.has(x) {
            return;
        }
        let b = bucket(self.by, x);
        self.held[self.count] = x;
        self.next[self.count] = self.heads[b];
        self.heads[b] = (self.count + 1) as u16;
        self.count += 1;
    }

    // Adds the values of a row, one after the other.
    fn add_all(&mut self, row: &[u32])
        requires { length self.old + length row.now ≤ 6144 }
        ensures { self.new ≡ add_all_to ℕ_discrete row.now self.old }
    {
        for x in row {
            self.add(*x);
        }
    }
}

// The bucket of a value.
fn bucket(by: usize, x: u32) -> usize
    requires { by < 2147483648 }
    ensures { (result ≡ bucket_of by x) × (result < 4096) }
{
    x as usize * by % 4294967296 / 1048576
}

// How many values of a row are 0. By the count of a filter the program branches at each value, and of a row of which a third is 0 no processor foretells that.
fn zeros_of(row: &[u32]) -> usize
    ensures { result ≡ zeros_in row.now }
{
    let mut zeros: usize = 0;
    for x in row {
        if *x == 0 {
            zeros += 1;
        }
    }
    zeros
}

// Adds the values of all rows and answers how many are 0. The width of a row is that of its kind.
fn add_rows(lines: &[u32], values: &mut Values) -> usize
    requires { SheetHeld lines.now × (values.old ≡ []) }
    ensures { ValuesAre lines.now (length values.new) result }
{
    let mut widths = [0u32; 65];
    let mut zeros: usize = 0;
    for line in lines.as_chunks::<8>().0 {
        let kind = line[1] as usize;
        if line[0] == LETTER_K {
            widths[kind] = line[2];
        } else if line[0] == LETTER_R {
            let row = &line[2..2 + widths[kind] as usize];
            values.add_all(row);
            zeros += zeros_of(row);
        }
    }
    zeros
}

// The first t. The first 0 is among the different numbers; each further one is a value more. Its arrays have a frame of their own, so that they are not there while the sheet is judged.
#[inline(never)]
pub(crate) fn count_values(lines: &[u32]) -> usize
    requires { SheetHeld lines.now }
    ensures { (result ≡ first_t (lines_in lines.now)) × (result ≤ 12288) }
{
    let mut values = Values {
        held: [0; 6144],
        heads: [0; 4096],
        next: [0; 6144],
        by: chains::multiplier(lines),
        count: 0,
    };
    let zeros = add_rows(lines, &mut values);
    let different = values.len();
    if zeros == 0 {
        return different;
    }
    different + zeros - 1
}
