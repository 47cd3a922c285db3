// A question of a trace as a list of clauses.
ghost use Rattle.std.specs.Prelude.{◌≡◌, ◌≤◌, map, length};
ghost use Rattle.stack.specs.Runs.{part};
ghost use Rattle.resolution.specs.Lists.{CopiedAs};
ghost use Rattle.frames.specs.Held.{frame as clauses_in};
ghost use Rattle.question_theory.specs.Traces.{safe_question};
ghost use Rattle.questions.specs.Lists.{denied_next, step_clauses, next_clause, asked};
ghost use Rattle.questions.specs.Kept.{asked_kept};
ghost use Rattle.questions.specs.Laws.{TellsOf};

use super::framed::{copy_framed, count_framed, find_next};
use super::question::TraceQuestion;
use super::rows::{copy_row, count_rows, deny_next};
use frames::Frames;
use machine::Machine;
use refusal::RefutationFault;
use resolution::ClauseList;
use stack::{Bounds, Span, Stack};

// The clauses of a question about a rule of a machine; those of the frames stand on the stacks.
#[derive(Drop)]
pub struct TraceList<'m, 'f, M: Machine> {
    pub(crate) machine: &'m M,
    pub(crate) frames: &'f Frames,
    rule: usize,
    question: TraceQuestion,
}

impl<'m, 'f, M: Machine> TraceList<'m, 'f, M> {
    // A question about a rule, and what the questions of the trace tell of it.
    pub fn new(
        machine: &'m M,
        frames: &'f Frames,
        rule: usize,
        question: TraceQuestion,
    ) -> TraceList<'m, 'f, M>
        ensures machine { result.machine.now ≡ machine.now }
        ensures frames { result.frames.now ≡ frames.now }
        ensures rule { result.rule ≡ rule }
        ensures question { result.question ≡ question }
        ensures tells { TellsOf (M.meaning machine.now) rule frames.now }
    {
        TraceList {
            machine,
            frames,
            rule,
            question,
        }
    }

    // How many clauses a step question has.
    fn count_step(&self, index: usize, clause: usize, literals: &[u32], spans: &[Span]) -> usize
        ensures { result ≡ length (step_clauses (M.meaning self.now.machine.now) (clauses_in self.now.frames.now literals.now spans.now index) (next_clause self.now.frames.now literals.now spans.now index clause)) }
    {
        let rows = count_rows(self.machine, 1, literals, spans);
        let framed = count_framed(self.frames, index, spans);
        let next = find_next(self.frames, index, clause, literals, spans);
        rows + framed + (next.end - next.start)
    }

    // Copies the denial of a literal of the next frame's clause.
    fn copy_denied(
        &self,
        next: Bounds,
        number: usize,
        stack: &mut Stack,
        literals: &mut [u32],
    ) -> Result<(), RefutationFault>
        requires { (next.start ≤ next.end) × (next.end ≤ length literals.old) }
        ensures { CopiedAs (map (denied_next (M.meaning self.now.machine.now)) (part literals.old next.start next.end)) number stack.old.used stack.new.used literals.old literals.new result }
    {
        let literal = *literals[next.start..next.end]
            .get(number)
            .ok_or(RefutationFault::NoClause)?;
        stack.push(literals, deny_next(self.machine, literal))?;
        Ok(())
    }

    // Copies a clause of a step question: of two rows, of the frame, or a denial.
    fn copy_step(
        &self,
        index: usize,
        clause: usize,
        number: usize,
        stack: &mut Stack,
        literals: &mut [u32],
        spans: &[Span],
    ) -> Result<(), RefutationFault>
        ensures { CopiedAs (step_clauses (M.meaning self.now.machine.now) (clauses_in self.now.frames.now literals.old spans.now index) (next_clause self.now.frames.now literals.old spans.now index clause)) number stack.old.used stack.new.used literals.old literals.new result }
    {
        let rows = count_rows(self.machine, 1, literals, spans);
        if number < rows {
            return copy_row(self.machine, 1, number, stack, literals, spans);
        }
        let framed = count_framed(self.frames, index, spans);
        if number - rows < framed {
            return copy_framed(self.frames, index, number - rows, stack, literals, spans);
        }
        let next = find_next(self.frames, index, clause, literals, spans);
        self.copy_denied(next, number - rows - framed, stack, literals)
    }

    // How many clauses a safe question has.
    fn count_safe(&self, index: usize, literals: &[u32], spans: &[Span]) -> usize
        ensures { result ≡ length (safe_question (M.meaning self.now.machine.now) self.now.rule (clauses_in self.now.frames.now literals.now spans.now index)) }
    {
        let rows = count_rows(self.machine, 0, literals, spans);
        rows + count_framed(self.frames, index, spans) + 1
    }

    // Copies a clause of a safe question: of one row, of the frame, or the rule's literal.
    fn copy_safe(
        &self,
        index: usize,
        number: usize,
        stack: &mut Stack,
        literals: &mut [u32],
        spans: &[Span],
    ) -> Result<(), RefutationFault>
        ensures { CopiedAs (safe_question (M.meaning self.now.machine.now) self.now.rule (clauses_in self.now.frames.now literals.old spans.now index)) number stack.old.used stack.new.used literals.old literals.new result }
    {
        let rows = count_rows(self.machine, 0, literals, spans);
        if number < rows {
            return copy_row(self.machine, 0, number, stack, literals, spans);
        }
        let framed = count_framed(self.frames, index, spans);
        if number - rows < framed {
            return copy_framed(self.frames, index, number - rows, stack, literals, spans);
        }
        if number - rows > framed {
            return Err(RefutationFault::NoClause);
        }
        let broken = self.machine.rule_literal(self.rule).unwrap_or(0);
        stack.push(literals, broken)?;
        Ok(())
    }
}

impl<'m, 'f, M: Machine> ClauseList for TraceList<'m, 'f, M> {
    ghost clauses = { λ s ls ps. asked (M.Machine.meaning s.machine.now) s.rule s.frames.now ls ps s.question };

    ghost literal_mark = { λ s. s.frames.now.ended };

    ghost span_mark = { λ s. s.frames.now.spans.used };

    ghost stands = { λ s ls ms ps qs h k. asked_kept s.frames.now ls ms ps qs h k (M.Machine.meaning s.machine.now) s.rule s.question };

    fn count(&self, literals: &[u32], spans: &[Span]) -> usize {
        match self.question {
            TraceQuestion::Step { frame, clause } => {
                self.count_step(frame, clause, literals, spans)
            },
            TraceQuestion::Safe { frame } => self.count_safe(frame, literals, spans),
            TraceQuestion::Closing => self.count_closing(spans),
        }
    }

    fn copy(
        &self,
        number: usize,
        stack: &mut Stack,
        literals: &mut [u32],
        spans: &[Span],
    ) -> Result<(), RefutationFault> {
        match self.question {
            TraceQuestion::Step { frame, clause } => {
                self.copy_step(frame, clause, number, stack, literals, spans)
            },
            TraceQuestion::Safe { frame } => self.copy_safe(frame, number, stack, literals, spans),
            TraceQuestion::Closing => self.copy_closing(number, stack, literals, spans),
        }
    }
}
