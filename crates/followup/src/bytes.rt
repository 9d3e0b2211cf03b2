// Numbers as bytes, lowest first.
ghost use Rattle.std.specs.Prelude.{◌≡◌, ◌++◌, ◌+◌, ◌*◌, ◌≤◌, length, take, drop};
ghost use Rattle.followup.specs.Bytes.{number, numbers_from, all_bytes};

// The u16 at byte `at`.
fn u16_at(bytes: &[u8], at: usize) -> u16
    requires { at + 2 ≤ length bytes.now }
    ensures { result ≡ number (take 2 (drop at bytes.now)) }
{
    u16::from_le_bytes([bytes[at], bytes[at + 1]])
}

// The u32 at byte `at`.
fn number_at(bytes: &[u8], at: usize) -> u32
    requires { at + 4 ≤ length bytes.now }
    ensures { result ≡ number (take 4 (drop at bytes.now)) }
{
    u32::from_le_bytes([bytes[at], bytes[at + 1], bytes[at + 2], bytes[at + 3]])
}

// The five u16 from byte `at` on.
pub(crate) fn five_at(bytes: &[u8], at: usize) -> [u16; 5]
    requires { at + 10 ≤ length bytes.now }
    ensures { result ≡ numbers_from 2 5 (drop at bytes.now) }
{
    [
        u16_at(bytes, at),
        u16_at(bytes, at + 2),
        u16_at(bytes, at + 4),
        u16_at(bytes, at + 6),
        u16_at(bytes, at + 8),
    ]
}

// Puts the first n numbers of the bytes at the front of the numbers.
pub(crate) fn decode(bytes: &[u8], numbers: &mut [u32], n: usize)
    requires { (4 * n ≤ length bytes.now) × (n ≤ length numbers.old) }
    ensures { numbers.new ≡ numbers_from 4 n bytes.now ++ drop n numbers.old }
{
    for (i, number) in numbers[..n].iter_mut().enumerate() {
        *number = number_at(bytes, 4 * i);
    }
}

// Puts the first n numbers at the front of the bytes. Not one function with `encode_u16`: a trait with its law and two impls is longer than both.
pub(crate) fn encode_u32(numbers: &[u32], bytes: &mut [u8], n: usize)
    requires { (n ≤ length numbers.now) × (4 * n ≤ length bytes.old) }
    ensures { bytes.new ≡ all_bytes 4 (take n numbers.now) ++ drop (4 * n) bytes.old }
{
    for (i, number) in numbers[..n].iter().enumerate() {
        bytes[4 * i..4 * i + 4].copy_from_slice(&number.to_le_bytes());
    }
}

// Puts the first n numbers at the front of the bytes. Not one function with `encode_u32`, as it says there.
pub(crate) fn encode_u16(numbers: &[u16], bytes: &mut [u8], n: usize)
    requires { (n ≤ length numbers.now) × (2 * n ≤ length bytes.old) }
    ensures { bytes.new ≡ all_bytes 2 (take n numbers.now) ++ drop (2 * n) bytes.old }
{
    for (i, number) in numbers[..n].iter().enumerate() {
        bytes[2 * i..2 * i + 2].copy_from_slice(&number.to_le_bytes());
    }
}
