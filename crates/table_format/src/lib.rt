// The bytes of a step table: the questions that a reader puts to them, and what they mean.
#![tactic(auto)]

ghost use Rattle.std.specs.Prelude.{◌≡◌, MatchResult, OnOk};
ghost use Rattle.table_format.specs.Tables.{Encodes, Good};
ghost use Rattle.table_format.specs.Questions.{read};

use refusal::TableRefusal;
use rows::{end, row};
use sizes::Sizes;

mod rows;
mod sizes;
#[cfg(test)]
mod tests;

// How many bytes stand before the first row: the record of the sizes.
pub const SIZES_LENGTH: usize = 4;

// How many bytes each row is.
pub const ROW_LENGTH: usize = 7;

// Puts the questions on a table's bytes, in order; yes to all exactly where they are a table within bounds.
pub fn examine(bytes: &[u8]) -> Result<(), TableRefusal>
    ensures answer { result ≡ read bytes.now }
    ensures exactly { MatchResult result (λ _. Encodes bytes.now) (λ _. Encodes bytes.now → ⊥) }
    ensures table { OnOk result (Good bytes.now) }
{
    let (sizes, mut rest) = Sizes::first(bytes).map_err(|fault| fault.at(0))?;
    let rows = sizes.rows();
    for r in 0..rows {
        rest = row(sizes, rest).map_err(|fault| fault.at(SIZES_LENGTH + ROW_LENGTH * r))?;
    }
    end(rest, SIZES_LENGTH + ROW_LENGTH * rows)
}
