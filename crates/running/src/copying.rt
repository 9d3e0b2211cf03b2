// The records copied out, as R lines of eight numbers.
ghost use Rattle.std.specs.Prelude.{◌≡◌, ◌++◌, map, ℕ, ◌+◌, ◌*◌, ◌≤◌, ◌<◌, length, get_or, drop};
ghost use Rattle.sheet.specs.Line.{lent, lent_of};
ghost use Rattle.rules.specs.Inner.Bytes.{Part};
ghost use Rattle.carrying.specs.Carrying.{Row};
ghost use Rattle.carrying.specs.Contract.{row_line};
ghost use Rattle.running.specs.Held.{row_at, rows_at, PackedRow, unpacked, Holds};

use sheet::LETTER_R;

// Copies record `i`.
fn copy_record(rows: &[u32], i: usize, records: &mut [u32])
    requires { (i < 4096) × (7 * i + 7 ≤ length rows.now) × PackedRow (row_at rows.now i) × (8 * i + 8 ≤ length records.old) }
    ensures { Part records.old (8 * i) 8 (λ (k : ℕ). get_or (lent (row_line (unpacked (row_at rows.now i)))) k 0) records.new }
{
    records[8 * i] = LETTER_R;
    records[8 * i + 1] = rows[7 * i] / 8;
    records[8 * i + 2..8 * i + 8].copy_from_slice(&rows[7 * i + 1..7 * i + 7]);
}

// Copies the first so many records.
pub(crate) fn copy_out(rows: &[u32], count: usize, records: &mut [u32])
    requires { Holds rows.now count (rows_at rows.now count) × (8 * count ≤ length records.old) }
    ensures { records.new ≡ lent_of (map row_line (rows_at rows.now count)) ++ drop (8 * count) records.old }
{
    for i in 0..count {
        copy_record(rows, i, records);
    }
}
