// What is looked up by a hash: chains of places, a chain for each bucket, and the multiplier by which numbers fall into buckets. It is drawn from the sheet's own rows: for a fixed one there are tables whose records all fall into one bucket.
#![tactic(auto)]

ghost use Rattle.std.specs.Prelude.{◌<◌};

// A multiplier for a hash, drawn from the first number of each line.
pub fn multiplier(lines: &[u32]) -> usize
    ensures { result < 2147483648 }
{
    let mut h: usize = 1;
    for line in lines.chunks_exact(8) {
        h = (h + line[2] as usize) * 1640531527 % 4294967296;
    }
    1073741825 + h % 536870912 * 2
}
