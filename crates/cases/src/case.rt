// A case: the head of two lines, and the sheet's text after it.
use crate::said::Said;

// Both lines of a case's head, 61 and 74 bytes.
pub(crate) type Head = [u8; 135];

// The number in a column of nine bytes. It has eight digits at most; a blank counts as 0.
pub(crate) fn column_number(column: &[u8]) -> usize {
    column.iter().fold(
        0,
        |n, byte| n % 100000000 * 10 + usize::from(byte.saturating_sub(b'0')),
    )
}

// Whether a number is the one in its column, or none is given there.
fn is_given(column: &[u8], n: usize) -> bool {
    column.last() == Some(&b' ') || column_number(column) == n
}

// Whether an answer is the one that the head of its case gives.
pub(crate) fn as_given(head: &Head, said: &Said) -> bool {
    let (letter, numbers) = said.columns();
    let columns = head[62..134].chunks_exact(9);
    head[61] == letter && columns.zip(numbers).all(|(column, n)| is_given(column, n))
}
