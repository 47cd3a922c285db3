// A row of a step table: its numbers, read in place, and its clauses by their places.
ghost use Rattle.std.specs.Prelude.{◌≡◌, ℕ, ◌+◌, ◌*◌, ◌<◌, ◌≤◌, [], ◌∷◌, ◌++◌, map, slice_index, slice_index_or};
ghost use Rattle.resolution.specs.Clauses.{denial};
ghost use Rattle.machine.specs.Clauses.{listed};
ghost use Rattle.table_format.specs.Tables.{rows, table_of};
ghost use Rattle.table_format.specs.Stepping.{row_variable, given_literals, row_clauses, clauses_per_row};

use crate::literals::literal;
use crate::table::StepTable;
use machine::{Clause, Machine};
use resolution::deny;
use table_format::{ROW_LENGTH, SIZES_LENGTH};

// A row that a step table has, by its number.
#[derive(Clone, Copy)]
pub(crate) struct Row<'a> {
    pub(crate) table: StepTable<'a>,
    pub(crate) number: usize,
    ghost within: { number < rows (table_of table.bytes.now) },
}

impl<'a> Row<'a> {
    // So many of the row's bytes, from a place among them on.
    fn bytes_at<const N: usize>(&self, place: usize) -> [u8; N]
        requires { place + N ≤ ROW_LENGTH }
        ensures { (k : ℕ) → k < N → slice_index result k ≡ slice_index self.now.table.bytes.now (SIZES_LENGTH + ROW_LENGTH * self.now.number + place + k) }
    {
        let first = SIZES_LENGTH + ROW_LENGTH * self.number;
        *self.table.bytes[first + place..].first_chunk().unwrap()
    }

    // The next state, as a number.
    pub(crate) fn next_state(&self) -> u32
        ensures { result ≡ (table_of self.now.table.bytes.now).next self.now.number }
    {
        u32::from(u16::from_le_bytes(self.bytes_at(1)))
    }

    // The broken rules, bit o for rule o.
    pub(crate) fn broken_rules(&self) -> u32
        ensures { result ≡ (table_of self.now.table.bytes.now).broken self.now.number }
    {
        u32::from_le_bytes(self.bytes_at(3))
    }

    // The literal that says that the row's inputs and state are given.
    fn row_literal(&self) -> u32
        ensures { result ≡ 2 * row_variable (table_of self.now.table.bytes.now) self.now.number }
    {
        2 * (1 + self.table.given() + self.number) as u32
    }

    // The clause that makes the row's variable true where its inputs and state are given.
    fn given_clause(&self) -> Clause
        ensures { listed result ≡ map denial (given_literals (table_of self.now.table.bytes.now) self.now.number) ++ (2 * row_variable (table_of self.now.table.bytes.now) self.now.number) ∷ [] }
    {
        let mut clause = Clause::empty();
        for bit in 0..self.table.given() {
            clause
                .push(deny(literal(1 + bit, self.number as u32, bit)))
                .unwrap();
        }
        clause.push(self.row_literal()).unwrap();
        clause
    }

    // A clause of the row, by its place among them.
    pub(crate) fn clause(&self, place: usize) -> Clause
        requires { place < clauses_per_row (table_of self.now.table.bytes.now) }
        ensures { listed result ≡ slice_index_or (row_clauses (table_of self.now.table.bytes.now) self.now.number) place [] }
    {
        let given = self.table.given();
        let not_row = self.row_literal() + 1;
        if place < given {
            return Clause::of(&[literal(1 + place, self.number as u32, place), not_row]);
        }
        if place == given {
            return self.given_clause();
        }
        let outcome = place - given - 1;
        let variable = self.table.first_outcome() + outcome;
        let state_bits = self.table.state_bits();
        if outcome < state_bits {
            return Clause::of(&[not_row, literal(variable, self.next_state(), outcome)]);
        }
        let rule = outcome - state_bits;
        Clause::of(&[not_row, literal(variable, self.broken_rules(), rule)])
    }
}
