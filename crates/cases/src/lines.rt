// A text walked line by line.

// Whether the walker hands out the text's lines one after the other, each up to its byte 10, and then stays where it is.
pub(crate) fn walks_right(text: &[u8]) -> bool {
    let mut at: usize = 0;
    for (i, &byte) in text.iter().enumerate() {
        if byte == b'\n' {
            at = walker::moved_from(text, at);
            if at != i + 1 {
                return false;
            }
        }
    }
    walker::moved_from(text, at) == at
}
