// A refutation that has both areas for itself: they are all zero before and after it.
ghost use Rattle.std.specs.Prelude.{◌≡◌, ℕ, List, [], length, MatchResult};
ghost use Rattle.refusal.specs.declared.faults.DocketFault.TheVariants.{UnfitArea};
ghost use Rattle.refusal.specs.declared.faults.RefutationFault.TheVariants.{NotRefuted};
ghost use Rattle.resolution.specs.Clauses.{Unsat};
ghost use Rattle.resolution.specs.Outcomes.{granted};
ghost use Rattle.resolution.specs.States.{own, started, closed, ended, no_literals, no_spans, Standing, Follows};

use super::refutation::{Refutation, Refuted, fitting};
use areas::clear;
use refusal::{DocketFault, RefutationFault};
use stack::{Span, Stack};

impl Refutation {
    // Starts one, if the areas are not too long; they are all zero then.
    pub fn start(literals: &mut [u32], spans: &mut [Span]) -> Result<Refutation, DocketFault>
        ensures answer { result ≡ started literals.old spans.old }
        ensures literals { literals.new ≡ granted result (no_literals literals.old) literals.old }
        ensures spans { spans.new ≡ granted result (no_spans spans.old) spans.old }
        ensures stands { MatchResult result (λ t. Standing t literals.new spans.new × (own t literals.new spans.new ≡ [])) (λ e. e ≡ UnfitArea) }
    {
        if !fitting(literals, spans) {
            return Err(DocketFault::UnfitArea);
        }
        clear(literals);
        clear(spans);
        Ok(Refutation::above(Stack::default(), Stack::default()))
    }

    // Ends it, where it has a clause and the latest is empty; both areas are all zero then.
    pub fn finish(
        &mut self,
        literals: &mut [u32],
        spans: &mut [Span],
    ) -> Result<Refuted, RefutationFault>
        ensures answer { result ≡ ended (own self.old literals.old spans.old) }
        ensures refutation { self.new ≡ granted result (closed self.old) self.old }
        ensures literals { literals.new ≡ granted result (no_literals literals.old) literals.old }
        ensures spans { spans.new ≡ granted result (no_spans spans.old) spans.old }
        ensures refuted { MatchResult result (λ _. (list : List (List ℕ)) → Follows list (own self.old literals.old spans.old) → Unsat list) (λ e. e ≡ NotRefuted) }
    {
        let refuted = self.conclude(literals, spans)?;
        clear(literals);
        clear(spans);
        Ok(refuted)
    }

    // Ends it with nothing shown; both areas are all zero then.
    pub fn give_up(&mut self, literals: &mut [u32], spans: &mut [Span])
        ensures refutation { self.new ≡ closed self.old }
        ensures literals { literals.new ≡ no_literals literals.old }
        ensures spans { spans.new ≡ no_spans spans.old }
    {
        clear(literals);
        clear(spans);
        self.abandon();
    }
}
