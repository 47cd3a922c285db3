// The parts of a filled row.
ghost use Rattle.std.specs.Prelude.{◌≡◌, ◌+◌, ◌<◌, ◌≤◌, length, take, drop};
ghost use Rattle.std.proofs.Math.Seq.{paste};
ghost use Rattle.machine.specs.Rows.{bits, Ready};
ghost use Rattle.table_format.specs.Stepping.{number};
ghost use Rattle.step_table.specs.Filling.{bit_bytes, mark_bytes};

use crate::literals::bit_of;

// The number that the inputs and the state in a row have together.
pub(crate) fn row_number(row: &[u8], given: usize) -> usize
    requires { (given ≤ 10) × (Ready given (1 + given) row.now) }
    ensures { result ≡ number (take given (drop 1 (bits row.now))) }
{
    row[1..1 + given]
        .iter()
        .rev()
        .fold(0, |sum, byte| sum << 1 | usize::from(*byte))
}

// Sets the bytes of the rows' variables: 1 for one of them.
pub(crate) fn mark_row(row: &mut [u8], first: usize, count: usize, marked: usize)
    requires { (marked < count) × (first + count ≤ length row.old) }
    ensures { row.new ≡ paste row.old first (mark_bytes marked count) count }
{
    let rows = &mut row[first..first + count];
    rows.fill(0);
    rows[marked] = 1;
}

// Sets a byte for each of the lowest bits of a number.
pub(crate) fn set_bits(row: &mut [u8], first: usize, count: usize, value: u32)
    requires { (count ≤ 32) × (first + count ≤ length row.old) }
    ensures { row.new ≡ paste row.old first (bit_bytes value count) count }
{
    for (bit, byte) in row[first..first + count].iter_mut().enumerate() {
        *byte = u8::from(bit_of(value, bit));
    }
}
