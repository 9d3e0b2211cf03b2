// Notes of firings.
ghost use Rattle.std.specs.Prelude.{◌≡◌, [], ◌∷◌, ◌+◌, ◌-◌, ◌*◌, ◌≤◌, ◌<◌, length};
ghost use Rattle.rules.specs.Table.{TableFits};
ghost use Rattle.judging.specs.Inner.Codes.{shape_at, ShapeFits};
ghost use Rattle.judging.specs.Inner.Firing.{ByKind};
ghost use Rattle.judging.specs.Inner.Noted.{WrittenAt, ShapeNotes};
ghost use Rattle.judging.specs.Inner.Passes.{Onward};

use crate::shape::{made, next_fire, rule_byte};

// A firing: its rule and H line, counted from 0, as 8 × rule + 2 × H line, and the place of the shape that it makes.
pub(crate) type Note = [u16; 2];

// Notes firing number k, where there is room. `place` is one more than the place of the shape that it makes.
pub(crate) fn note(notes: &mut [Note], k: usize, firing: usize, place: u16)
    requires { (firing < 65536) × (1 ≤ place) }
    ensures { WrittenAt notes.old notes.new k (firing ∷ (place - 1) ∷ []) }
{
    if k < notes.len() {
        notes[k] = [firing as u16, place - 1];
    }
}

// Notes the firings on a shape, the first at place 0. Answers how many there are.
pub(crate) fn note_shape(
    table: &[u8; 16384],
    rules: usize,
    kinds: &[u16; 321],
    shape: usize,
    index: &[u16; 17792],
    notes: &mut [Note; 1024],
) -> usize
    requires { TableFits table.now rules × (length index.now ≡ 17792) × (shape < 17792) × ShapeFits (shape_at shape) × Onward table.now rules index.now 3584 shape × ByKind table.now rules kinds.now
        × (length notes.old ≡ 1024) }
    ensures { (length notes.new ≡ 1024) × (result ≤ 1024)
        × ShapeNotes table.now rules index.now notes.new shape 0 result }
{
    let kind = shape / 278 + 1;
    let digits = sheet::digits(shape % 278 + 1);
    let mut k: usize = 0;
    let mut next = next_fire(table, rules, kinds, kind, kind, digits);
    // This walks the chain of the rules that fire.
    while let Some(r) = next {
        let heads = rule_byte(table, r, 28);
        for h in 0..heads {
            let code = made(table, rules, r, h, digits);
            note(notes, k, 8 * r + 2 * h, index[code]);
            k += 1;
        }
        next = next_fire(table, rules, kinds, 65 + r, kind, digits);
    }
    k
}
