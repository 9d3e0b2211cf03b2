// Tables of fixed room in which no entry stands twice.
use arrayvec::ArrayVec;

// What a table can hold.
pub(crate) trait Entry: Copy + Default + Eq {
    // A number by which most entries that differ are told apart.
    fn key(&self) -> u32;
}

// An entry after its key, which is compared first.
#[derive(Clone, Copy, Default)]
pub(crate) struct Keyed<T> {
    pub key: u32,
    pub entry: T,
}

// The key of what is keyed so far and a number after it.
pub(crate) fn mixed(key: u32, number: u32) -> u32 {
    key.wrapping_add(number).wrapping_mul(2654435769)
}

// Puts an entry into the table unless it is there. Gives its place; None where there is no room for it.
pub(crate) fn add<T: Entry, const N: usize>(
    table: &mut ArrayVec<Keyed<T>, N>,
    new: T,
) -> Option<usize> {
    let key = new.key();
    let place = table
        .iter()
        .position(|old| old.key == key && old.entry == new);
    if place.is_some() {
        return place;
    }
    let end = table.len();
    match table.try_push(Keyed { key, entry: new }) {
        Ok(()) => Some(end),
        Err(_) => None,
    }
}
