// The order in which the sweeps go through the found shapes. In the order of discovery a sweep carries a number on where a firing leads to a
// shape found later, and leaves it to the next sweep where it leads back. A walk in depth finds a better one: where the noted firings lead in
// no loop, each shape comes before those that it leads to. Shapes whose firings were not noted come after the others, as they were found.
ghost use Rattle.std.specs.Prelude.{◌≡◌, ◌≤◌, ◌<◌, length, MatchOption};
ghost use Rattle.judging.specs.Inner.Order.{Opens, Ordered};

use crate::notes::Note;

// The first note on shape `s`, from the one to look at next on, that leads to a shape without a mark; none where the notes on the shape had
// no room.
fn open_note(
    notes: &[Note],
    starts: &[u32; 513],
    next: &[u32; 513],
    marks: &[bool; 512],
    count: usize,
    s: usize,
) -> Option<usize>
    requires { (length starts.now ≡ 513) × (length next.now ≡ 513) × (length marks.now ≡ 512) × (count ≤ 512) × (s < 512) }
    ensures { MatchOption result (Unit {0}) (λ k. Opens notes.now marks.now count k) }
{
    let end = starts[s + 1] as usize;
    if notes.len() < end {
        return None;
    }
    for k in next[s] as usize..end {
        let t = notes[k][1] as usize;
        if t < count && !marks[t] {
            return Some(k);
        }
    }
    None
}

// The order that the walk finds: a shape is put down, from the last place to the first, when all that it leads to is marked.
fn walked(notes: &[Note], starts: &[u32; 513], count: usize) -> [u16; 512]
    requires { (length notes.now ≤ 8192) × (length starts.now ≡ 513) × (count ≤ 512) }
    ensures { Ordered result count }
{
    let room = notes.len() as u32;
    let mut order = [0u16; 512];
    let mut left = count;
    let mut marks = [false; 512];
    // The shapes that the walk has entered and not left, and for each shape the note to look at next.
    let mut stack = [0u16; 512];
    let mut next = *starts;
    // Shapes whose notes had no room come last, as they were found. A while: what is left goes on below.
    while 0 < left && room < starts[left] {
        left -= 1;
        marks[left] = true;
        order[left] = left as u16;
    }
    for root in 0..count {
        let mut depth: usize = 0;
        if !marks[root] {
            marks[root] = true;
            stack[0] = root as u16;
            depth = 1;
        }
        // A while: the stack grows and shrinks.
        while 0 < depth {
            let s = stack[depth - 1] as usize;
            if let Some(k) = open_note(notes, starts, &next, &marks, count, s) {
                let t = notes[k][1];
                next[s] = k as u32;
                marks[t as usize] = true;
                stack[depth] = t;
                depth += 1;
            } else {
                depth -= 1;
                left -= 1;
                order[left] = s as u16;
            }
        }
    }
    order
}

// The order of discovery.
fn as_found(count: usize) -> [u16; 512]
    requires { count ≤ 512 }
    ensures { Ordered result count }
{
    let mut order = [0u16; 512];
    for (i, place) in order[..count].iter_mut().enumerate() {
        *place = i as u16;
    }
    order
}

// Whether a shape waits.
fn any_waits(waiting: &[bool; 512], count: usize) -> bool
    requires { (length waiting.now ≡ 512) × (count ≤ 512) }
{
    waiting[..count].contains(&true)
}

// Whether more than one note leads to a shape found before its own, or notes had no room.
fn leads_back(notes: &[Note], starts: &[u32; 513], count: usize) -> bool
    requires { (length starts.now ≡ 513) × (count ≤ 512) }
{
    let mut once = false;
    for s in 0..count {
        let end = starts[s + 1] as usize;
        if notes.len() < end {
            return true;
        }
        // By index: `skip` would go to the first note of the shape one by one.
        for k in starts[s] as usize..end {
            if (notes[k][1] as usize) < s {
                if once {
                    return true;
                }
                once = true;
            }
        }
    }
    false
}

// The places below `count`, each once, in the order of the sweeps: as they were found where no shape waits, or where that costs one sweep
// more at most.
pub(crate) fn order_of(
    waiting: &[bool; 512],
    notes: &[Note],
    starts: &[u32; 513],
    count: usize,
) -> [u16; 512]
    requires { (length waiting.now ≡ 512) × (length notes.now ≤ 8192) × (length starts.now ≡ 513) × (count ≤ 512) }
    ensures { Ordered result count }
{
    if any_waits(waiting, count) && leads_back(notes, starts, count) {
        return walked(notes, starts, count);
    }
    as_found(count)
}
