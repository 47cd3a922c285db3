// The clauses of the closing question, by their numbers.
ghost use Rattle.std.specs.Prelude.{◌≡◌, ℕ, ◌<◌, ◌≤◌, ◌+◌, ◌*◌, List, length, take};
ghost use Rattle.stack.specs.Pushes.{PushedAs};
ghost use Rattle.resolution.specs.Lists.{CopiedAs};
ghost use Rattle.questions.specs.Closing.{selecting, denying, closing_clauses};
ghost use Rattle.questions.specs.Places.{begun, place};

use super::framed::{copy_framed, count_framed, frame_end};
use super::list::TraceList;
use super::question::last_frame;
use frames::Frames;
use machine::Machine;
use refusal::{Full, RefutationFault};
use resolution::deny;
use stack::{Span, Stack};

// Whether there is such a span, and it starts at or before a literal.
fn has_begun(frames: &Frames, number: usize, literal: usize, spans: &[Span]) -> bool
    ensures { result ≡ begun (take frames.now.spans.used spans.now) literal number }
{
    frames
        .spans()
        .read(spans, number)
        .is_some_and(|span| span.start as usize <= literal)
}

// The span that a literal lies in, by halving.
fn find_span(frames: &Frames, literal: usize, spans: &[Span]) -> usize
    ensures span { result ≡ place (take frames.now.spans.used spans.now) literal }
    ensures few { result < 65536 }
{
    let mut span = 0;
    for bit in (0..16u32).rev() {
        let next = span + (1 << bit);
        if has_begun(frames, next, literal, spans) {
            span = next;
        }
    }
    span
}

impl<'m, 'f, M: Machine> TraceList<'m, 'f, M> {
    // How many clauses the closing question has.
    pub(crate) fn count_closing(&self, spans: &[Span]) -> usize
        ensures { (a : ℕ) (ls : List ℕ) → result ≡ length (closing_clauses a self.now.frames.now ls spans.now) }
    {
        let last = last_frame(self.frames);
        count_framed(self.frames, last, spans) + last + self.frames.before(last).literals
    }

    // Copies a clause of it: of the last frame, a choice, or a denial.
    pub(crate) fn copy_closing(
        &self,
        number: usize,
        stack: &mut Stack,
        literals: &mut [u32],
        spans: &[Span],
    ) -> Result<(), RefutationFault>
        ensures { CopiedAs (closing_clauses (M.meaning self.now.machine.now).variables self.now.frames.now literals.old spans.now) number stack.old.used stack.new.used literals.old literals.new result }
    {
        let last = last_frame(self.frames);
        let framed = count_framed(self.frames, last, spans);
        if number < framed {
            return copy_framed(self.frames, last, number, stack, literals, spans);
        }
        let choice = number - framed;
        if choice < last {
            return Ok(self.push_selectors(choice, stack, literals)?);
        }
        let literal = choice - last;
        if literal >= self.frames.before(last).literals {
            return Err(RefutationFault::NoClause);
        }
        Ok(self.push_denial(literal, stack, literals, spans)?)
    }

    // Pushes the selectors of a frame's clauses: variables behind the machine's, one for each clause of all frames.
    fn push_selectors(
        &self,
        index: usize,
        stack: &mut Stack,
        literals: &mut [u32],
    ) -> Result<(), Full>
        ensures { PushedAs (selecting (M.meaning self.now.machine.now).variables self.now.frames.now index) stack.old.used stack.new.used literals.old literals.new result }
    {
        let variables = self.machine.variables();
        let first = self.frames.before(index).clauses;
        let size = frame_end(self.frames, index).saturating_sub(first);
        let start = stack.used;
        let room = literals.len().checked_sub(start).ok_or(Full)?;
        if size > room {
            return Err(Full);
        }
        // One test for all of them, and the machine is asked once.
        for k in 0..size {
            literals[start + k] = (2 * (variables + (first + k))) as u32;
        }
        stack.used = start + size;
        Ok(())
    }

    // Pushes the denial of a literal of the frames, and the denial of its clause's selector.
    fn push_denial(
        &self,
        literal: usize,
        stack: &mut Stack,
        literals: &mut [u32],
        spans: &[Span],
    ) -> Result<(), Full>
        ensures { PushedAs (denying (M.meaning self.now.machine.now).variables (take self.now.frames.now.ended literals.old) (take self.now.frames.now.spans.used spans.now) literal) stack.old.used stack.new.used literals.old literals.new result }
    {
        let span = find_span(self.frames, literal, spans);
        let ended = Stack {
            used: self.frames.ended(),
        };
        let found = ended.read(literals, literal).unwrap_or(0);
        stack.push_all(literals, &[deny(found), deny(self.selector(span))])
    }

    // The selector of a clause, counted through all frames.
    fn selector(&self, clause: usize) -> u32
        requires { clause < 131072 }
        ensures { result ≡ 2 * ((M.meaning self.now.machine.now).variables + clause) }
    {
        (2 * (self.machine.variables() + clause)) as u32
    }
}
