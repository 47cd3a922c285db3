// The clauses of rows that follow one another, each computed from its number.
ghost use Rattle.std.specs.Prelude.{◌≡◌, suc, ◌+◌, ◌*◌, ◌/◌, ◌%◌, ◌<◌, ◌≤◌, min, [], map, length, slice_index_or, refl};
ghost use Rattle.std.specs.Option.{option_map};
ghost use Rattle.machine.specs.Clauses.{listed};
ghost use Rattle.machine.specs.Lists.{entry};
ghost use Rattle.question_theory.specs.Unrolling.{moved, literal_of_state, unroll, Unrolled};
ghost use Rattle.question_theory.specs.Shapes.{Fine, unroll_size};
ghost use Rattle.unrolling.specs.Ties.{tie_at};

use super::pushing::{pair, push_clause};
use machine::{Clause, Machine};
use refusal::RefutationFault;
use resolution::{ClauseList, deny};
use stack::{Span, Stack};

// A literal moved to a frame.
pub(crate) fn move_literal<M: Machine>(machine: &M, frame: usize, literal: u32) -> u32
    requires near { frame ≤ 64 }
    requires low { literal < 2 * (M.meaning machine.now).variables }
    ensures { result ≡ moved (M.meaning machine.now) frame literal }
{
    (2 * (frame * machine.variables())) as u32 + literal
}

// The literal of a state bit.
pub(crate) fn state_literal<M: Machine>(machine: &M, bit: usize) -> u32
    requires { bit < (M.meaning machine.now).state_bits }
    ensures { result ≡ literal_of_state (M.meaning machine.now) bit }
{
    (2 * (machine.inputs() + 1 + bit)) as u32
}

// The clauses of depth + 1 rows of a machine that follow one another.
#[derive(Drop)]
pub struct Unrolling<'m, M: Machine> {
    machine: &'m M,
    depth: usize,
    ghost shallow: { depth ≤ 64 },
}

impl<'m, M: Machine> ClauseList for Unrolling<'m, M> {
    ghost clauses = { λ s ls ps. unroll (M.Machine.meaning s.machine.now) s.depth };

    ghost literal_mark = { λ s. 0 };

    ghost span_mark = { λ s. 0 };

    ghost stands = { λ s ls ms ps qs h k. refl };

    fn count(&self, literals: &[u32], spans: &[Span]) -> usize {
        self.size()
    }

    fn copy(
        &self,
        number: usize,
        stack: &mut Stack,
        literals: &mut [u32],
        spans: &[Span],
    ) -> Result<(), RefutationFault> {
        push_clause(self.clause(number), stack, literals)
    }
}

impl<'m, M: Machine> Unrolling<'m, M> {
    // The unrolling to a depth; one above 64 is taken as 64.
    pub fn new(machine: &'m M, depth: usize) -> Unrolling<'m, M>
        ensures machine { result.machine.now ≡ machine.now }
        ensures depth { result.depth ≡ min depth 64 }
        ensures rows { Unrolled (M.meaning machine.now) result.depth }
        ensures fine { Fine (2 * (suc result.depth * (M.meaning machine.now).variables)) (unroll (M.meaning machine.now) result.depth) }
    {
        Unrolling {
            machine,
            depth: depth.min(64),
        }
    }

    // How many clauses the rows have.
    pub(crate) fn size(&self) -> usize
        ensures { result ≡ unroll_size (M.meaning self.now.machine.now) self.now.depth }
    {
        (self.depth + 1) * self.machine.clauses() + self.depth * (2 * self.machine.state_bits())
    }

    // A clause of the rows by its number: first each row's, then the ties of each row to the next.
    pub(crate) fn clause(&self, number: usize) -> Option<Clause>
        ensures { option_map listed result ≡ entry (unroll (M.meaning self.now.machine.now) self.now.depth) number }
    {
        let clauses = self.machine.clauses();
        let ties = 2 * self.machine.state_bits();
        match number.checked_sub((self.depth + 1) * clauses) {
            None => Some(self.row_clause(number / clauses, number % clauses)),
            Some(tie) if tie < self.depth * ties => Some(self.tie_clause(tie / ties, tie % ties)),
            Some(_) => None,
        }
    }

    // A clause of the machine moved to a row.
    fn row_clause(&self, row: usize, number: usize) -> Clause
        requires near { row ≤ self.now.depth }
        requires known { number < length (M.meaning self.now.machine.now).clauses }
        ensures { listed result ≡ map (moved (M.meaning self.now.machine.now) row) (slice_index_or (M.meaning self.now.machine.now).clauses number []) }
    {
        let clause = self.machine.clause(number).unwrap();
        let mut there = Clause::empty();
        for literal in clause.as_slice() {
            there
                .push(move_literal(self.machine, row, *literal))
                .unwrap();
        }
        there
    }

    // A clause that ties a row to the next: a state bit there is true only if, or is true if, its next literal is.
    fn tie_clause(&self, row: usize, number: usize) -> Clause
        requires near { row < self.now.depth }
        requires known { number / 2 < (M.meaning self.now.machine.now).state_bits }
        ensures { listed result ≡ tie_at (M.meaning self.now.machine.now) row number }
    {
        let bit = number / 2;
        let next = self.machine.next_literal(bit).unwrap();
        let from = move_literal(self.machine, row, next);
        let to = move_literal(self.machine, row + 1, state_literal(self.machine, bit));
        if number % 2 == 0 {
            pair(from, deny(to))
        } else {
            pair(deny(from), to)
        }
    }
}
