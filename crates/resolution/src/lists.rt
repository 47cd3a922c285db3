// Lists of clauses, as refutations see them.
ghost use Rattle.std.specs.Prelude.{◌≡◌, ℕ, List, length, take};
ghost use Rattle.stack.specs.declared.spans.Span.{Span as SpanOf};
ghost use Rattle.resolution.specs.Lists.{CopiedAs};

use refusal::RefutationFault;
use stack::{Span, Stack};

// A list of clauses, which may stand partly in the work areas; so each lookup is lent these.
pub trait ClauseList {
    // the clauses, where the areas hold these literals and spans
    ghost clauses: { Self → List ℕ → List SpanOf → List (List ℕ) };

    // its marks: it reads no literal, and no span, of the areas from these on
    ghost literal_mark: { Self → ℕ };

    ghost span_mark: { Self → ℕ };

    ghost stands: { (s : Self) (ls ms : List ℕ) (ps qs : List SpanOf) → take (literal_mark s) ms ≡ take (literal_mark s) ls → take (span_mark s) qs ≡ take (span_mark s) ps → clauses s ms qs ≡ clauses s ls ps };

    // How many clauses it has.
    fn count(&self, literals: &[u32], spans: &[Span]) -> usize
        ensures { result ≡ length (clauses self.now literals.now spans.now) };

    // Pushes one clause onto the stack of literals, whole, if there is such a clause and it fits.
    fn copy(
        &self,
        number: usize,
        stack: &mut Stack,
        literals: &mut [u32],
        spans: &[Span],
    ) -> Result<(), RefutationFault>
        ensures { CopiedAs (clauses self.now literals.old spans.now) number stack.old.used stack.new.used literals.old literals.new result };
}
