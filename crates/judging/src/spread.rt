// Generations: the largest that each field of each found shape can have, or a loop in which they rise for ever.
//
// A node is a field of a found shape, 7 × place of the shape + field; field 0 stands for no field. A link leads from a node to a field of
// the shape that an H line makes: a carried one from the first place of the mark, a fresh one from the first place of each carried mark,
// or from field 0 where the rule carries nothing. Its code is 8 × rule + 2 × H line + fresh, both counted from 0.
ghost use Rattle.std.specs.Prelude.{◌≡◌, [], ℕ, ◌+◌, ◌*◌, ◌≤◌, ◌<◌, length, get_or};
ghost use Rattle.rules.specs.Table.{table_rules, row_bytes};
ghost use Rattle.judging.specs.Inner.Nodes.{Grid, Zeros, from_of, link_of};
ghost use Rattle.judging.specs.Inner.Links.{Spreads, turning_number};
ghost use Rattle.judging.specs.Inner.Noted.{NoteFits, NoteLink, NotesLink};
ghost use Rattle.judging.specs.Inner.Order.{Ordered};
ghost use Rattle.judging.specs.Inner.Passes.{is_calm, is_over, node_of, Live, Done, Swept, Rests, Just, Upto, FreshLink, Best, ShapeLink, EachLink, Inside, Walked};
ghost use Rattle.judging.specs.Inner.Ground.{GroundOf};

use crate::fresh::first_waiting;
use crate::grid::{Numbers, Raises, field, from_of, number, put_field, put_raise};
use crate::notes::{Note, note_shape};
use crate::order::order_of;
use crate::shape::rule_byte;

// What the sweeps go by: the table of rules, the rules by their kinds, the found shapes with their places, and the notes of the search.
#[derive(Clone, Copy)]
pub(crate) struct Basis<'a> {
    pub table: &'a [u8; 16384],
    pub rules: usize,
    pub kinds: &'a [u16; 321],
    pub shapes: &'a [u32; 512],
    pub index: &'a [u16; 17792],
    pub notes: &'a [Note],
    pub starts: &'a [u32; 513],
    // How many shapes were found.
    pub count: usize,
}

// What following links raised last: nothing, a node, or a node that was raised above the number of nodes; then nothing more is followed.
// (A node is a u16 here: beside a usize the case would stand in eight bytes, seven of them copied for nothing.)
#[derive(Clone, Copy)]
enum Raised {
    Nothing,
    Node(u16),
    Over(u16),
}

impl Raised {
    // Whether a node was raised above the number of nodes.
    fn is_over(self) -> bool
        ensures { result ≡ is_over self }
    {
        matches!(self, Raised::Over(_))
    }

    // Whether nothing was raised.
    fn is_calm(self) -> bool
        ensures { result ≡ is_calm self }
    {
        matches!(self, Raised::Nothing)
    }

    // The node that was raised last; 0 where none was.
    fn node(self) -> usize
        ensures { result ≡ node_of self }
    {
        match self {
            Raised::Nothing => 0,
            Raised::Node(v) | Raised::Over(v) => v as usize,
        }
    }
}

// Follows one link, from field p of shape s to field j of shape t, where there are n nodes. `waiting` says of each shape whether its links
// are to be followed.
fn follow(
    n: usize,
    s: usize,
    p: usize,
    t: usize,
    j: usize,
    link: u16,
    generations: &mut Numbers,
    raises: &mut Raises,
    waiting: &mut [bool; 512],
    last: Raised,
) -> Raised
    requires { Live n generations.old raises.old waiting.old last × (p < 7) × (j < 7) × (7 * s + 7 ≤ n) × (7 * t + 7 ≤ n) }
    ensures { Done n (Just (7 * s + p) (7 * t + j) link) generations.old raises.old waiting.old last generations.new raises.new waiting.new result }
{
    if last.is_over() {
        return last;
    }
    let x = field(generations, s, p) + link % 2;
    if field(generations, t, j) >= x {
        return last;
    }
    put_field(generations, t, j, x);
    put_raise(raises, t, j, (7 * s + p) as u16, link);
    waiting[t] = true;
    let v = (7 * t + j) as u16;
    if n < x as usize {
        return Raised::Over(v);
    }
    Raised::Node(v)
}

// The source of rule `r` with the largest generation in shape `s`, the first such: a place of its B line, 0 where the rule carries nothing.
fn best_source(table: &[u8; 16384], r: usize, s: usize, generations: &Numbers) -> Option<usize>
    requires { (length table.now ≡ 16384) × (r < 256) × (s < 512) × Grid generations.now }
    ensures { Best (row_bytes table.now r) generations.now s result }
{
    let mut best = None;
    let mut most: u16 = 0;
    for p in (0..7).rev() {
        if rule_byte(table, r, 21 + p) == 1 {
            let x = field(generations, s, p);
            if most <= x {
                best = Some(p);
                most = x;
            }
        }
    }
    best
}

// Follows the fresh links of rule `r` from shape `s` to field j of shape t: the one from the source with the largest generation. After it
// the others raise nothing.
fn follow_fresh(
    table: &[u8; 16384],
    n: usize,
    s: usize,
    r: usize,
    t: usize,
    j: usize,
    link: u16,
    generations: &mut Numbers,
    raises: &mut Raises,
    waiting: &mut [bool; 512],
    before: Raised,
) -> Raised
    requires { (length table.now ≡ 16384) × (r < 256) × Live n generations.old raises.old waiting.old before × (j < 7) × (7 * s + 7 ≤ n) × (7 * t + 7 ≤ n) }
    ensures { Done n (Upto 7 (FreshLink (row_bytes table.now r) s (7 * t + j) link)) generations.old raises.old waiting.old before generations.new raises.new waiting.new result }
{
    match best_source(table, r, s, generations) {
        None => before,
        Some(p) => follow(n, s, p, t, j, link, generations, raises, waiting, before),
    }
}

// Follows the links of a note on shape `s`: those of its rule and H line, to the shape that they make.
fn follow_note(
    table: &[u8; 16384],
    n: usize,
    s: usize,
    note: Note,
    generations: &mut Numbers,
    raises: &mut Raises,
    waiting: &mut [bool; 512],
    before: Raised,
) -> Raised
    requires { (length table.now ≡ 16384) × NoteFits table.now n note × Live n generations.old raises.old waiting.old before × (7 * s + 7 ≤ n) }
    ensures { Done n (NoteLink table.now s note) generations.old raises.old waiting.old before generations.new raises.new waiting.new result }
{
    let firing = note[0] as usize;
    let r = firing / 8;
    let h = firing / 2 % 4;
    let t = note[1] as usize;
    let width = rule_byte(table, r, 33 + 8 * h);
    let link = (8 * r + 2 * h) as u16;
    let mut last = before;
    for j in 0..width {
        let mark = rule_byte(table, r, 34 + 8 * h + j);
        let place = rule_byte(table, r, 8 + mark);
        if place == 0 {
            last = follow_fresh(
                table,
                n,
                s,
                r,
                t,
                j + 1,
                link + 1,
                generations,
                raises,
                waiting,
                last,
            );
        } else {
            last = follow(
                n,
                s,
                place,
                t,
                j + 1,
                link,
                generations,
                raises,
                waiting,
                last,
            );
        }
    }
    last
}

// Follows the links of notes on shape `s`.
fn follow_noted(
    table: &[u8; 16384],
    n: usize,
    s: usize,
    notes: &[Note],
    generations: &mut Numbers,
    raises: &mut Raises,
    waiting: &mut [bool; 512],
    before: Raised,
) -> Raised
    requires { (length table.now ≡ 16384) × ((k : ℕ) → k < length notes.now → NoteFits table.now n (get_or notes.now k [])) × Live n generations.old raises.old waiting.old before × (7 * s + 7 ≤ n) }
    ensures { Done n (NotesLink table.now notes.now s) generations.old raises.old waiting.old before generations.new raises.new waiting.new result }
{
    let mut last = before;
    for &note in notes {
        last = follow_note(table, n, s, note, generations, raises, waiting, last);
    }
    last
}

// Follows all links from the shape at place `s`: by the notes of the search, where it had room for them, and otherwise by notes that are made anew.
fn follow_shape(
    basis: &Basis,
    s: usize,
    generations: &mut Numbers,
    raises: &mut Raises,
    waiting: &mut [bool; 512],
    before: Raised,
) -> Raised
    requires { GroundOf basis.now × (s < basis.now.count) × Live (7 * basis.now.count) generations.old raises.old waiting.old before }
    ensures { let b = basis.now in Done (7 * b.count) (ShapeLink b.table.now b.rules b.index.now (get_or b.shapes.now s 0) s) generations.old raises.old waiting.old before generations.new raises.new waiting.new result }
{
    let n = 7 * basis.count;
    let first = basis.starts[s] as usize;
    let end = basis.starts[s + 1] as usize;
    if end <= basis.notes.len() {
        return follow_noted(
            basis.table,
            n,
            s,
            &basis.notes[first..end],
            generations,
            raises,
            waiting,
            before,
        );
    }
    let mut here = [[0u16; 2]; 1024];
    let shape = basis.shapes[s] as usize;
    let noted = note_shape(
        basis.table,
        basis.rules,
        basis.kinds,
        shape,
        basis.index,
        &mut here,
    );
    follow_noted(
        basis.table,
        n,
        s,
        &here[..noted],
        generations,
        raises,
        waiting,
        before,
    )
}

// Follows the links of each waiting shape once, the shapes in this order. Answers what was raised last.
fn sweep(
    basis: &Basis,
    order: &[u16; 512],
    generations: &mut Numbers,
    raises: &mut Raises,
    waiting: &mut [bool; 512],
) -> Raised
    requires { GroundOf basis.now × Ordered order.now basis.now.count
        × Live (7 * basis.now.count) generations.old raises.old waiting.old Raised.Nothing
        × ((u v link : ℕ) → EachLink basis.now.table.now basis.now.rules basis.now.shapes.now basis.now.index.now basis.now.count u v link → Rests generations.old waiting.old u v link) }
    ensures { let b = basis.now in Swept (7 * b.count) (EachLink b.table.now b.rules b.shapes.now b.index.now b.count) b.count generations.old raises.old generations.new raises.new waiting.new result }
{
    let mut last = Raised::Nothing;
    for &place in &order[..basis.count] {
        let s = place as usize;
        if waiting[s] {
            waiting[s] = false;
            last = follow_shape(basis, s, generations, raises, waiting, last);
        }
    }
    last
}

// The node that lies n links back from node x, where no node of generation 0 is met.
fn back(n: usize, generations: &Numbers, raises: &Raises, x: usize) -> Option<usize>
    requires { Inside n generations.now (from_of raises.now) x }
    ensures { Walked n generations.now (from_of raises.now) x (turning_number result) }
{
    let mut y = x;
    for _ in 0..n {
        if number(generations, y) == 0 {
            return None;
        }
        y = from_of(raises, y) as usize;
    }
    Some(y)
}

// Raises the generations, all 0 at first, until all is settled or they rise in a loop; each node keeps the link that raised it last. Answers a node of the loop, if there is one.
pub(crate) fn spread(basis: &Basis, generations: &mut Numbers, raises: &mut Raises) -> Option<usize>
    requires { GroundOf basis.now × Zeros generations.old × (length raises.old ≡ 3584) }
    ensures { let b = basis.now in Spreads (table_rules b.table.now b.rules) b.shapes.now b.count generations.new (from_of raises.new) (link_of raises.new) (turning_number result) }
{
    let n = 7 * basis.count;
    let mut waiting = first_waiting(basis.table, basis.rules, basis.shapes, basis.count);
    let order = order_of(&waiting, basis.notes, basis.starts, basis.count);
    loop {
        let last = sweep(basis, &order, generations, raises, &mut waiting);
        if last.is_calm() {
            return None;
        }
        let turning = back(n, generations, raises, last.node());
        if turning.is_some() {
            return turning;
        }
    }
}
