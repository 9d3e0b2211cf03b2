// The records that a run leaves as bytes: R lines, 32 bytes each.
ghost use Rattle.std.specs.Prelude.{◌≡◌, ◌++◌, map, ◌+◌, ◌*◌, ◌≤◌, ◌<◌, length, drop};
ghost use Rattle.sheet.specs.Line.{lent, lent_of};
ghost use Rattle.carrying.specs.Contract.{row_line};
ghost use Rattle.running.specs.Held.{row_at, rows_at, PackedRow, unpacked, Holds};
ghost use Rattle.followup.specs.Bytes.{all_bytes};

use crate::bytes::encode_u32;
use sheet::LETTER_R;

// The R line of record `i`: letter, kind, six numbers.
fn record_line(rows: &[u32], i: usize) -> [u32; 8]
    requires { (i < 4096) × (7 * i + 7 ≤ length rows.now) × PackedRow (row_at rows.now i) }
    ensures { result ≡ lent (row_line (unpacked (row_at rows.now i))) }
{
    let at = 7 * i;
    [
        LETTER_R,
        rows[at] / 8,
        rows[at + 1],
        rows[at + 2],
        rows[at + 3],
        rows[at + 4],
        rows[at + 5],
        rows[at + 6],
    ]
}

// Puts the first so many records at the front of the bytes.
pub(crate) fn encode_records(rows: &[u32], count: usize, bytes: &mut [u8])
    requires { Holds rows.now count (rows_at rows.now count) × (32 * count ≤ length bytes.old) }
    ensures { bytes.new ≡ all_bytes 4 (lent_of (map row_line (rows_at rows.now count))) ++ drop (32 * count) bytes.old }
{
    for i in 0..count {
        let line = record_line(rows, i);
        let at = 32 * i;
        encode_u32(&line, &mut bytes[at..], 8);
    }
}
