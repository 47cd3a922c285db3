// The rows of a step table, and its end.
ghost use Rattle.std.specs.Prelude.{◌≡◌, ◌^◌, ◌<◌};
ghost use Rattle.std.specs.Result.{result_map_both};
ghost use Rattle.table_format.specs.Records.{row_taken, ended};

use crate::sizes::Sizes;
use refusal::{TableFault, TableRefusal};

// The bytes after the row that stands first.
pub(crate) fn row(sizes: Sizes, rest: &[u8]) -> Result<&[u8], TableFault>
    ensures { result_map_both (λ after. after.now) (λ fault. fault) result ≡ row_taken sizes.state_bits sizes.rules rest.now }
{
    match *rest {
        [2, low, high, a, b, c, d, ref rest @ ..] => {
            let next = u16::from_le_bytes([low, high]);
            let broken = u32::from_le_bytes([a, b, c, d]);
            if !sizes.hold(next, broken) {
                return Err(TableFault::RowNumbers);
            }
            Ok(rest)
        }
        _ => Err(TableFault::NoRow),
    }
}

// Whether the bytes from an offset on are the end record alone.
pub(crate) fn end(rest: &[u8], offset: usize) -> Result<(), TableRefusal>
    requires { offset < 2 ^ 32 }
    ensures { result ≡ ended rest.now offset }
{
    match rest {
        [3] => Ok(()),
        [3, ..] => Err(TableFault::Ending.at(offset + 1)),
        _ => Err(TableFault::Ending.at(offset)),
    }
}
