// Steps: the way to a found shape, and the links that lead to a node, written into the lent steps, five numbers each.
ghost use Rattle.std.specs.Prelude.{◌≡◌, ◌+◌, ◌*◌, ◌≤◌, ◌<◌, length};
ghost use Rattle.judging.specs.Inner.Nodes.{at, back, Grid, from_of, link_of};
ghost use Rattle.judging.specs.Inner.Found.{maker_at};
ghost use Rattle.judging.specs.Inner.Written.{put_steps, one_step, line_to, way_to, way_back, Falls, WayLength, Deepest, InTurn, TurnLength, InLine, LineLength, StaysBelow};

use crate::grid::{Numbers, Raises, from_of, link_of, number};
use crate::search::Way;

// Puts a step's five numbers at step `at`.
fn put_step(steps: &mut [u16], at: usize, rule: u16, head: u16, from: u16, to: u16, fresh: u16)
    requires { 5 * at + 5 ≤ length steps.old }
    ensures { steps.new ≡ put_steps steps.old at (one_step rule head from to fresh) }
{
    let k = 5 * at;
    steps[k..k + 5].copy_from_slice(&[rule, head, from, to, fresh]);
}

// How many firings lead from a row to the shape at place `s`.
pub(crate) fn way_length(ways: &[Way; 512], count: usize, s: usize) -> usize
    requires { Falls ways.now count × (s < count) }
    ensures { WayLength ways.now s result }
{
    let mut x = s;
    let mut k: usize = 0;
    // A while: it walks a chain, whose length is what is asked.
    while ways[x][0] != 0 {
        x = ways[x][0] as usize - 1;
        k += 1;
    }
    k
}

// Puts the k reaching steps to the shape at place `s`. Answers the row that they start from.
pub(crate) fn put_way(
    steps: &mut [u16],
    ways: &[Way; 512],
    count: usize,
    s: usize,
    k: usize,
) -> usize
    requires { Falls ways.now count × (s < count) × WayLength ways.now s k × (5 * k ≤ length steps.old) }
    ensures { (steps.new ≡ put_steps steps.old 0 (way_to ways.now k s))
        × (result ≡ maker_at ways.now (way_back ways.now k s)) }
{
    let mut x = s;
    for at in (0..k).rev() {
        put_step(steps, at, ways[x][1], ways[x][2], 0, 0, 0);
        x = ways[x][0] as usize - 1;
    }
    ways[x][1] as usize
}

// Puts k steps after step `first`: the links that lead to node x, the last one last.
pub(crate) fn put_links(steps: &mut [u16], first: usize, k: usize, raises: &Raises, x: usize)
    requires { StaysBelow (from_of raises.now) k x × (5 * (first + k) ≤ length steps.old) }
    ensures { steps.new ≡ put_steps steps.old first (line_to (from_of raises.now) (link_of raises.now) k x) }
{
    let mut y = x;
    for left in (0..k).rev() {
        let u = from_of(raises, y);
        let code = link_of(raises, y);
        put_step(
            steps,
            first + left,
            code / 8 + 1,
            code / 2 % 4 + 1,
            u % 7,
            (y % 7) as u16,
            code % 2,
        );
        y = u as usize;
    }
}

// The node that lies k links back from node x.
pub(crate) fn line_start(k: usize, raises: &Raises, x: usize) -> usize
    requires { StaysBelow (from_of raises.now) k x }
    ensures { result ≡ back (from_of raises.now) k x }
{
    let mut y = x;
    for _ in 0..k {
        y = from_of(raises, y) as usize;
    }
    y
}

// The first node of the largest generation among those of n nodes where a number is made: a fresh link leads there. Node 0 is no field, and stands for none.
pub(crate) fn deepest(n: usize, generations: &Numbers, raises: &Raises) -> usize
    requires { Grid generations.now × (n ≤ 3584) }
    ensures { Deepest generations.now (link_of raises.now) n result }
{
    let mut best: usize = 0;
    for v in 0..n {
        if link_of(raises, v) % 2 == 1 {
            if number(generations, best) < number(generations, v) {
                best = v;
            }
        }
    }
    best
}

// How many links lead back from node y to itself.
pub(crate) fn turn_length(n: usize, raises: &Raises, y: usize) -> usize
    requires { (n ≤ 3584) × (y < n) × InTurn (from_of raises.now) n y }
    ensures { TurnLength (from_of raises.now) n y result }
{
    let mut z = from_of(raises, y) as usize;
    let mut k: usize = 1;
    // A while: it walks a chain, whose length is what is asked.
    while z != y {
        z = from_of(raises, z) as usize;
        k += 1;
    }
    k
}

// How many links lead back from node x to a node of generation 0.
pub(crate) fn line_length(n: usize, generations: &Numbers, raises: &Raises, x: usize) -> usize
    requires { Grid generations.now × (n ≤ 3584) × (x < n) × InLine generations.now (from_of raises.now) n x }
    ensures { LineLength generations.now (from_of raises.now) n x result }
{
    let mut y = x;
    let mut k: usize = 0;
    // A while: it walks a chain, whose length is what is asked.
    while number(generations, y) != 0 {
        y = from_of(raises, y) as usize;
        k += 1;
    }
    k
}
