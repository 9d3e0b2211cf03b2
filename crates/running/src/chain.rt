// Chains of places, one for each bucket, the latest place first. A place counts from 1 there; 0 ends a chain.
ghost use Rattle.std.specs.Prelude.{true};
ghost use Rattle.running.specs.Inner.Chained.{Chained};
ghost use Rattle.running.specs.Inner.Chains.{FoundIn};

// The place in bucket `b`, of so many places in all, of which `is` holds; None where it holds of none. Section `c` has the beginnings of the chains, the next one where each place leads.
pub(crate) fn find_in<F: Fn(usize) -> bool>(
    index: &[u16],
    c: usize,
    b: usize,
    count: usize,
    is: F,
) -> Option<usize>
    requires { Chained index.now c b count (λ j. F.pre is j) (λ j r. F.post is j r) }
    ensures { FoundIn (λ j. F.post is j true) count result }
{
    let mut at = usize::from(index[4096 * c + b]);
    // A while, for a chain has no index: each place says the next.
    while at != 0 {
        let i = at - 1;
        if is(i) {
            return Some(i);
        }
        at = usize::from(index[4096 * c + 4096 + i]);
    }
    None
}
