// The questions of an induction over k rows, each as a list of clauses.
ghost use Rattle.std.specs.Prelude.{◌≡◌, ℕ, suc, ◌+◌, ◌*◌, ◌<◌, ◌≤◌, min, false, [], ◌∷◌, length, slice_index, slice_index_or, refl};
ghost use Rattle.std.specs.Option.{option_map};
ghost use Rattle.machine.specs.Clauses.{listed};
ghost use Rattle.machine.specs.Lists.{entry};
ghost use Rattle.machine.specs.Meaning.{Meaning};
ghost use Rattle.question_theory.specs.Unrolling.{moved};
ghost use Rattle.question_theory.specs.Inductions.{bit_literal, questions_of_induction};
ghost use Rattle.question_theory.specs.Shapes.{Fine};
ghost use Rattle.unrolling.specs.Asked.{asked, assumptions, assumption_at, Decides};

use super::pushing::{push_clause, unit};
use super::question::{InductionQuestion, Kind};
use super::rows::{Unrolling, move_literal, state_literal};
use machine::{Clause, Machine};
use refusal::RefutationFault;
use resolution::{ClauseList, deny};
use stack::{Span, Stack};
use std::cmp::Ordering;

// How many questions the induction over k rows has; k above 64 is taken as 64.
pub fn induction_questions(k: usize) -> usize
    ensures number { result ≡ min k 64 + 1 }
    ensures questions { (m : Meaning) (o : ℕ) → result ≡ length (questions_of_induction m o (min k 64)) }
{
    k.min(64) + 1
}

// A question of the induction over k rows, by its number from 0; k above 64 is taken as 64.
pub fn induction_question(k: usize, number: usize) -> Option<InductionQuestion>
    ensures { (m : Meaning) (o : ℕ) → option_map (asked m o) result ≡ entry (questions_of_induction m o (min k 64)) number }
{
    let depth = k.min(64);
    match number.cmp(&depth) {
        Ordering::Less => Some(InductionQuestion {
            kind: Kind::Base,
            depth: number,
        }),
        Ordering::Equal => Some(InductionQuestion {
            kind: Kind::Last,
            depth,
        }),
        Ordering::Greater => None,
    }
}

// The clauses of a question about a rule of a machine.
#[derive(Drop)]
pub struct InductionList<'m, M: Machine> {
    machine: &'m M,
    rule: usize,
    question: InductionQuestion,
}

impl<'m, M: Machine> ClauseList for InductionList<'m, M> {
    ghost clauses = { λ s ls ps. asked (M.Machine.meaning s.machine.now) s.rule s.question };

    ghost literal_mark = { λ s. 0 };

    ghost span_mark = { λ s. 0 };

    ghost stands = { λ s ls ms ps qs h k. refl };

    fn count(&self, literals: &[u32], spans: &[Span]) -> usize {
        self.rows().size() + self.count_assumptions() + 1
    }

    fn copy(
        &self,
        number: usize,
        stack: &mut Stack,
        literals: &mut [u32],
        spans: &[Span],
    ) -> Result<(), RefutationFault> {
        push_clause(self.clause(number), stack, literals)
    }
}

impl<'m, M: Machine> InductionList<'m, M> {
    // The clauses of a question about a rule.
    pub fn new(machine: &'m M, rule: usize, question: InductionQuestion) -> InductionList<'m, M>
        ensures machine { result.machine.now ≡ machine.now }
        ensures question { (result.rule ≡ rule) × (result.question ≡ question) }
        ensures fine { rule < (M.meaning machine.now).rules → Fine (2 * (suc question.depth * (M.meaning machine.now).variables)) (asked (M.meaning machine.now) rule question) }
        ensures decides { rule < (M.meaning machine.now).rules → (k : ℕ) → Decides (M.meaning machine.now) rule k }
    {
        InductionList {
            machine,
            rule,
            question,
        }
    }

    // The rows that the question is about.
    fn rows(&self) -> Unrolling<'m, M>
        ensures machine { result.machine.now ≡ self.now.machine.now }
        ensures depth { result.depth ≡ self.now.question.depth }
    {
        Unrolling::new(self.machine, self.question.depth)
    }

    // A clause by its number: first the rows', then the units that are assumed, then that the last row breaks the rule.
    fn clause(&self, number: usize) -> Option<Clause>
        ensures { option_map listed result ≡ entry (asked (M.meaning self.now.machine.now) self.now.rule self.now.question) number }
    {
        let rows = self.rows();
        let Some(behind) = number.checked_sub(rows.size()) else {
            return rows.clause(number);
        };
        match behind.cmp(&self.count_assumptions()) {
            Ordering::Less => Some(self.assumption(behind)),
            Ordering::Equal => Some(unit(self.broken_literal(self.question.depth))),
            Ordering::Greater => None,
        }
    }

    // How many units the question assumes.
    fn count_assumptions(&self) -> usize
        ensures { result ≡ assumptions (M.meaning self.now.machine.now) self.now.question.kind self.now.question.depth }
    {
        match self.question.kind {
            Kind::Base => self.machine.state_bits(),
            Kind::Last => self.question.depth,
        }
    }

    // A unit that the question assumes: a bit of the start, or that a row before the last does not break the rule.
    fn assumption(&self, number: usize) -> Clause
        requires { number < assumptions (M.meaning self.now.machine.now) self.now.question.kind self.now.question.depth }
        ensures { listed result ≡ assumption_at (M.meaning self.now.machine.now) self.now.rule self.now.question.kind number }
    {
        match self.question.kind {
            Kind::Base => self.start_unit(number),
            Kind::Last => unit(deny(self.broken_literal(number))),
        }
    }

    // That a state bit is as in the start.
    fn start_unit(&self, bit: usize) -> Clause
        requires { bit < (M.meaning self.now.machine.now).state_bits }
        ensures { listed result ≡ bit_literal (M.meaning self.now.machine.now) bit (slice_index_or (M.meaning self.now.machine.now).start bit false) ∷ [] }
    {
        let literal = state_literal(self.machine, bit);
        if self.machine.start_bit(bit).unwrap() {
            unit(literal)
        } else {
            unit(deny(literal))
        }
    }

    // The literal that says that the rule is broken in a row; for a rule that is not there, literal 0 of the row.
    fn broken_literal(&self, row: usize) -> u32
        requires { row ≤ 64 }
        ensures { result ≡ moved (M.meaning self.now.machine.now) row (slice_index (M.meaning self.now.machine.now).rule self.now.rule) }
    {
        let broken = self.machine.rule_literal(self.rule).unwrap_or(0);
        move_literal(self.machine, row, broken)
    }
}
