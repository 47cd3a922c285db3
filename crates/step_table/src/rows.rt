// How many rows a step table has, and what stands for each.
ghost use Rattle.std.specs.Prelude.{◌≡◌, ◌+◌, ◌*◌, ◌≤◌, MatchOption};
ghost use Rattle.table_format.specs.Tables.{rows, table_of};
ghost use Rattle.table_format.specs.Stepping.{row_variable, clauses_per_row};

use crate::row::Row;
use crate::table::StepTable;
use machine::Machine;

impl<'a> StepTable<'a> {
    // How many inputs and state bits there are.
    pub(crate) fn given(&self) -> usize
        ensures { result ≡ (table_of self.now.bytes.now).inputs + (table_of self.now.bytes.now).state_bits }
    {
        self.inputs() + self.state_bits()
    }

    // How many rows there are, one for each state and inputs.
    pub(crate) fn rows(&self) -> usize
        ensures { result ≡ rows (table_of self.now.bytes.now) }
    {
        1 << self.given()
    }

    // How many clauses each row has.
    pub(crate) fn clauses_per_row(&self) -> usize
        ensures { result ≡ clauses_per_row (table_of self.now.bytes.now) }
    {
        self.given() + 1 + self.state_bits() + self.rules()
    }

    // The variable after those of the rows: the next state bits come first, then the rules.
    pub(crate) fn first_outcome(&self) -> usize
        ensures { result ≡ row_variable (table_of self.now.bytes.now) (rows (table_of self.now.bytes.now)) }
    {
        1 + self.given() + self.rows()
    }

    // The row with a number, if there is one.
    pub(crate) fn row(&self, number: usize) -> Option<Row<'a>>
        ensures { MatchOption result (rows (table_of self.now.bytes.now) ≤ number) (λ row. (row.table ≡ self.now) × (row.number ≡ number)) }
    {
        if number >= self.rows() {
            return None;
        }
        Some(Row {
            table: *self,
            number,
        })
    }
}
