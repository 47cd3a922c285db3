// Step tables as rule machines: the bytes that a table is read from, and what it means.
#![tactic(auto)]

ghost use Rattle.std.specs.Prelude.{◌≡◌, MatchResult};
ghost use Rattle.table_format.specs.Tables.{Encodes, table_of};
ghost use Rattle.table_format.specs.Questions.{read};
ghost use Rattle.table_format.specs.Stepping.{meant};
ghost use Rattle.table_format.proofs.Law.{table_lawful};
ghost use Rattle.step_table.specs.Filling.{smallest_bytes};

use filling::{mark_row, row_number, set_bits};
use machine::{Clause, Machine, can_fill};
use refusal::{DocketFault, TableRefusal};
use row::Row;
use table_format::examine;

mod filling;
mod literals;
mod row;
mod rows;
mod table;
#[cfg(test)]
mod tests;

pub use table::StepTable;

static SMALLEST: [u8; 12] = [1, 0, 0, 1, 2, 0, 0, 0, 0, 0, 0, 3];

// The smallest table, for a caller to hold before it reads its own.
pub fn smallest<'a>() -> StepTable<'a>
    ensures { result.bytes.now ≡ smallest_bytes }
{
    StepTable { bytes: &SMALLEST }
}

impl<'a> StepTable<'a> {
    // Reads a table that is all of these bytes; refused, the table is as it was.
    pub fn read(&mut self, bytes: &'a [u8]) -> Result<(), TableRefusal>
        ensures answer { result ≡ read bytes.now }
        ensures table { MatchResult result
            (λ _. Encodes bytes.now × (self.new.bytes.now ≡ bytes.now))
            (λ _. (Encodes bytes.now → ⊥) × (self.new ≡ self.old)) }
    {
        examine(bytes)?;
        *self = StepTable { bytes };
        Ok(())
    }
}

impl<'a> Machine for StepTable<'a> {
    ghost meaning = { λ c. meant (table_of c.bytes.now) };

    ghost lawful = { λ c. table_lawful (table_of c.bytes.now) c.good.0 };

    fn inputs(&self) -> usize {
        self.bytes[1] as usize
    }

    fn state_bits(&self) -> usize {
        self.bytes[2] as usize
    }

    fn rules(&self) -> usize {
        self.bytes[3] as usize
    }

    fn variables(&self) -> usize {
        self.first_outcome() + self.state_bits() + self.rules()
    }

    fn clauses(&self) -> usize {
        1 + self.rows() * self.clauses_per_row()
    }

    fn start_bit(&self, bit: usize) -> Option<bool> {
        (bit < self.state_bits()).then_some(false)
    }

    fn next_literal(&self, bit: usize) -> Option<u32> {
        let first = self.first_outcome();
        (bit < self.state_bits()).then(|| 2 * (first + bit) as u32)
    }

    fn rule_literal(&self, rule: usize) -> Option<u32> {
        let first = self.first_outcome() + self.state_bits();
        (rule < self.rules()).then(|| 2 * (first + rule) as u32)
    }

    fn clause(&self, number: usize) -> Option<Clause> {
        if number == 0 {
            return Some(Clause::of(&[1]));
        }
        let per_row = self.clauses_per_row();
        let row = self.row((number - 1) / per_row)?;
        Some(row.clause((number - 1) % per_row))
    }

    fn fill(&self, row: &mut [u8]) -> Result<(), DocketFault> {
        let given = self.given();
        if !can_fill(row, given, self.variables()) {
            return Err(DocketFault::UnfitArea);
        }
        let number = row_number(row, given);
        let given_row = Row {
            table: *self,
            number,
        };
        let first = self.first_outcome();
        row[0] = 0;
        mark_row(row, 1 + given, self.rows(), number);
        set_bits(row, first, self.state_bits(), given_row.next_state());
        set_bits(
            row,
            first + self.state_bits(),
            self.rules(),
            given_row.broken_rules(),
        );
        Ok(())
    }
}
