// A whole refutation in one call.
#![tactic(auto)]

ghost use Rattle.std.specs.Prelude.{◌≡◌, ℕ, Bool, true, false, List, [], length, if◌then◌else◌, OnOk};
ghost use Rattle.resolution.specs.Clauses.{Unsat};
ghost use Rattle.resolution.specs.Outcomes.{admitted, granted};
ghost use Rattle.resolution.specs.States.{own, ended, fresh, no_literals, no_spans, Standing, Steps, Carries};
ghost use Rattle.refute.specs.Verdicts.{stepped, ran, concluded, verdict};

use refusal::{Refusal, RefutationFault};
use resolution::{ClauseList, Refutation, Refuted};
use stack::Span;

mod steps;

pub use steps::Step;

// Takes one step.
fn apply<L: ClauseList>(
    refutation: &mut Refutation,
    list: &L,
    step: Step,
    literals: &mut [u32],
    spans: &mut [Span],
) -> Result<usize, RefutationFault>
    ensures step { Steps refutation.old refutation.new literals.old literals.new spans.old spans.new (stepped refutation.old (L.clauses list.now literals.old spans.old) step literals.old spans.old) result }
    ensures spent { refutation.new.spent ≡ refutation.old.spent }
    ensures carries { Standing refutation.old literals.old spans.old → Carries (L.clauses list.now literals.old spans.old) (own refutation.old literals.old spans.old) (own refutation.new literals.new spans.new) }
{
    match step {
        Step::Take(number) => refutation.take(list, number as usize, literals, spans),
        Step::Resolve { left, right, pivot } => {
            refutation.resolve(left as usize, right as usize, pivot, literals, spans)
        }
    }
}

// Takes all steps, and then finishes.
fn attempt<L: ClauseList>(
    refutation: &mut Refutation,
    list: &L,
    steps: &[Step],
    literals: &mut [u32],
    spans: &mut [Span],
) -> Result<Refuted, RefutationFault>
    requires fresh { refutation.old ≡ fresh 0 0 }
    requires admits { admitted (length literals.old) (length spans.old) ≡ true }
    ensures answer { L.literal_mark list.now ≡ 0 → L.span_mark list.now ≡ 0 → result ≡ concluded (ran (L.clauses list.now literals.old spans.old) (length literals.old) (length spans.old) steps.now []) }
    ensures refuted { L.literal_mark list.now ≡ 0 → L.span_mark list.now ≡ 0 → OnOk result (Unsat (L.clauses list.now literals.old spans.old)) }
    ensures spent { refutation.new.spent ≡ granted result true false }
    ensures zero { OnOk result ((literals.new ≡ no_literals literals.old) × (spans.new ≡ no_spans spans.old)) }
{
    for step in steps {
        apply(refutation, list, *step, literals, spans)?;
    }
    refutation.finish(literals, spans)
}

// Starts a refutation, takes all steps and finishes; answers how many clauses it had.
pub fn refute<L: ClauseList>(
    list: &L,
    steps: &[Step],
    literals: &mut [u32],
    spans: &mut [Span],
) -> Result<usize, Refusal>
    ensures answer { L.literal_mark list.now ≡ 0 → L.span_mark list.now ≡ 0 → result ≡ verdict (L.clauses list.now literals.old spans.old) (length literals.old) (length spans.old) steps.now }
    ensures refuted { L.literal_mark list.now ≡ 0 → L.span_mark list.now ≡ 0 → OnOk result (Unsat (L.clauses list.now literals.old spans.old)) }
    ensures literals { literals.new ≡ (if admitted (length literals.old) (length spans.old) then no_literals literals.old else literals.old) }
    ensures spans { spans.new ≡ (if admitted (length literals.old) (length spans.old) then no_spans spans.old else spans.old) }
{
    let mut refutation = Refutation::start(literals, spans)?;
    let outcome = attempt(&mut refutation, list, steps, literals, spans);
    if outcome.is_err() {
        refutation.give_up(literals, spans);
    }
    Ok(outcome?.spend())
}

#[cfg(test)]
mod tests;
