// The answer: its counts, and the steps of the trail and the loop written into the lent steps.
ghost use Rattle.std.specs.Prelude.{◌≡◌, ◌+◌, ◌*◌, ◌≤◌, ◌<◌, length};
ghost use Rattle.judging.specs.Inner.Found.{fired_in};
ghost use Rattle.judging.specs.Inner.Nodes.{Grid, from_of};
ghost use Rattle.judging.specs.Inner.Written.{InTurn, InLine};
ghost use Rattle.judging.specs.Inner.Trails.{Lent, WroteEndless, WroteSettled};
ghost use Rattle.judging.specs.Inner.Judged.{Counted, FiguresOf, SaysEndless, Lines, SaysSettled};

use crate::grid::{Numbers, Raises, number};
use crate::search::Way;
use crate::{Figures, Verdict, trail};
use arithmetic::share;

// The counts of what the search found.
#[derive(Clone, Copy)]
pub(crate) struct Counts {
    pub shapes: usize,
    pub fired: usize,
    pub share: usize,
}

// Row, trail and loop of a verdict; the steps are written.
#[derive(Clone, Copy)]
struct Path {
    pub row: usize,
    pub trail: usize,
    pub turns: usize,
}

// How many of the rules fired.
fn fired_count(fired: &[bool; 256], rules: usize) -> usize
    requires { (length fired.now ≡ 256) × (rules ≤ 256) }
    ensures { result ≡ fired_in rules fired.now }
{
    fired[..rules].iter().filter(|&&x| x).count()
}

// Shapes, fired rules and their share.
pub(crate) fn counts_of(marks: &[bool; 256], shapes: usize, rules: usize) -> Counts
    requires { (length marks.now ≡ 256) × (rules ≤ 256) }
    ensures { Counted marks.now shapes rules result }
{
    let fired = fired_count(marks, rules);
    Counts {
        shapes,
        fired,
        share: share(fired as u32, rules as u32),
    }
}

// The figures of a verdict.
fn figures(counts: Counts, deepest: usize, path: Path) -> Figures
    ensures { FiguresOf counts deepest path.row path.trail path.turns result }
{
    Figures {
        deepest,
        shapes: counts.shapes,
        fired: counts.fired,
        share: counts.share,
        row: path.row,
        trail: path.trail,
        turns: path.turns,
    }
}

// Writes the way to node y's shape and then the loop back to y.
fn write_endless(
    steps: &mut [u16],
    ways: &[Way; 512],
    raises: &Raises,
    count: usize,
    y: usize,
) -> Path
    requires { Lent steps.old ways.now count × (y < 7 * count) × InTurn (from_of raises.now) (7 * count) y }
    ensures { WroteEndless ways.now raises.now count y
        steps.old result.row result.trail result.turns steps.new }
{
    let turns = trail::turn_length(7 * count, raises, y);
    let way = trail::way_length(ways, count, y / 7);
    let row = trail::put_way(steps, ways, count, y / 7, way);
    trail::put_links(steps, way, turns, raises, y);
    Path {
        row,
        trail: way,
        turns,
    }
}

// Writes the way to the shape where the line to node x begins and then that line.
fn write_settled(
    steps: &mut [u16],
    ways: &[Way; 512],
    generations: &Numbers,
    raises: &Raises,
    count: usize,
    x: usize,
) -> Path
    requires { Lent steps.old ways.now count × Grid generations.now × (x < 7 * count)
        × InLine generations.now (from_of raises.now) (7 * count) x }
    ensures { WroteSettled ways.now generations.now raises.now count x
        steps.old result.row result.trail steps.new × (result.turns ≡ 0) }
{
    let line = trail::line_length(7 * count, generations, raises, x);
    let start = trail::line_start(line, raises, x);
    let way = trail::way_length(ways, count, start / 7);
    let row = trail::put_way(steps, ways, count, start / 7, way);
    trail::put_links(steps, way, line, raises, x);
    Path {
        row,
        trail: way + line,
        turns: 0,
    }
}

// The verdict on a sheet that is endless, by the loop at node y: the counts, with row, trail and loop. The steps are written.
pub(crate) fn endless_verdict(
    steps: &mut [u16],
    ways: &[Way; 512],
    raises: &Raises,
    y: usize,
    counts: Counts,
) -> Verdict
    requires { Lent steps.old ways.now counts.shapes × (y < 7 * counts.shapes) × InTurn (from_of raises.now) (7 * counts.shapes) y }
    ensures { SaysEndless ways.now raises.now counts.shapes y counts steps.old result steps.new }
{
    let path = write_endless(steps, ways, raises, counts.shapes, y);
    Verdict::Endless(figures(counts, 0, path))
}

// The verdict on a sheet that settles: the counts, with the deepest generation. Where that is above 0, row and trail too, and the steps that make a number of it are written.
pub(crate) fn settled_verdict(
    steps: &mut [u16],
    ways: &[Way; 512],
    generations: &Numbers,
    raises: &Raises,
    counts: Counts,
) -> Verdict
    requires { Lent steps.old ways.now counts.shapes × Grid generations.now
        × Lines generations.now (from_of raises.now) counts.shapes }
    ensures { SaysSettled ways.now generations.now raises.now counts.shapes counts steps.old result steps.new }
{
    let count = counts.shapes;
    let x = trail::deepest(7 * count, generations, raises);
    let deepest = number(generations, x) as usize;
    let path = if deepest == 0 {
        Path {
            row: 0,
            trail: 0,
            turns: 0,
        }
    } else {
        write_settled(steps, ways, generations, raises, count, x)
    };
    Verdict::Settles(figures(counts, deepest, path))
}
