// A caller's own table of clauses.
ghost use Rattle.std.specs.Prelude.{◌≡◌, ℕ, ◌+◌, ◌<◌, ◌≤◌, true, false, List, length, MatchOption, refl};
ghost use Rattle.std.specs.List.{AllByRecursion};
ghost use Rattle.stack.specs.Runs.{runs};
ghost use Rattle.resolution.specs.Clauses.{Rising};
ghost use Rattle.resolution.specs.Lists.{numbered_clause, Proper, Tells};

use super::lists::ClauseList;
use refusal::RefutationFault;
use stack::{Bounds, Span, Stack};

// Clauses as spans of a slice of literals.
#[derive(Clone, Copy)]
pub struct ClauseTable<'l, 's> {
    literals: &'l [u32],
    spans: &'s [Span],
}

impl ClauseList for ClauseTable<'_, '_> {
    ghost clauses = { λ s ls ps. runs s.literals.now s.spans.now };

    ghost literal_mark = { λ s. 0 };

    ghost span_mark = { λ s. 0 };

    ghost stands = { λ s ls ms ps qs h k. refl };

    fn count(&self, literals: &[u32], spans: &[Span]) -> usize {
        self.spans.len()
    }

    fn copy(
        &self,
        number: usize,
        stack: &mut Stack,
        literals: &mut [u32],
        spans: &[Span],
    ) -> Result<(), RefutationFault> {
        let clause = self.clause(number).ok_or(RefutationFault::NoClause)?;
        stack.push_all(literals, clause)?;
        Ok(())
    }
}

// Whether each literal is above the one before it.
fn rising(clause: &[u32]) -> bool
    ensures { Tells result (Rising clause.now) }
{
    clause.is_sorted_by(|lower, upper| lower < upper)
}

fn proper(literals: &[u32], span: Span) -> bool
    ensures { Tells result (Proper literals.now span) }
{
    let start = span.start as usize;
    let end = start + span.length as usize;
    literals.get(start..end).is_some_and(rising)
}

impl<'l, 's> ClauseTable<'l, 's> {
    // The literals of one clause, if there is such a clause.
    fn clause(&self, number: usize) -> Option<&'l [u32]>
        ensures { MatchOption result (length self.now.spans.now ≤ number) (λ c. (number < length self.now.spans.now) × (c.now ≡ numbered_clause (runs self.now.literals.now self.now.spans.now) number)) }
    {
        let span = self.spans.get(number)?;
        let Bounds { start, end } = span.bounds(self.literals.len());
        Some(&self.literals[start..end])
    }

    // The table of these clauses, if each lies within the literals and rises.
    pub fn new(literals: &'l [u32], spans: &'s [Span]) -> Option<ClauseTable<'l, 's>>
        ensures { MatchOption result (AllByRecursion (Proper literals.now) spans.now → ⊥) (λ t. (t.literals.now ≡ literals.now) × (t.spans.now ≡ spans.now) × AllByRecursion Rising (runs literals.now spans.now)) }
    {
        spans
            .iter()
            .all(|span| proper(literals, *span))
            .then_some(ClauseTable { literals, spans })
    }
}
