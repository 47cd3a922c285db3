// How a caller holds a refutation under way: whatever comes of its steps, it ends it.
#![tactic(auto)]

ghost use Rattle.std.specs.Prelude.{◌≡◌, length, if◌then◌else◌, Ok, Err};
ghost use Rattle.refusal.specs.declared.faults.DocketFault.TheVariants.{UnfitArea};
ghost use Rattle.refusal.specs.declared.faults.Refusal.TheVariants.{Docket};
ghost use Rattle.resolution.specs.Outcomes.{admitted};
ghost use Rattle.resolution.specs.States.{no_literals, no_spans};

use refusal::Refusal;
use resolution::{ClauseList, Refutation};
use stack::Span;

// Starts a refutation, tries to take the first clause of a list, and gives it up; refused only where the start is.
pub fn try_first<L: ClauseList>(
    list: &L,
    literals: &mut [u32],
    spans: &mut [Span],
) -> Result<(), Refusal>
    ensures answer { result ≡ (if admitted (length literals.old) (length spans.old) then Ok tt else Err (Docket UnfitArea)) }
    ensures literals { literals.new ≡ (if admitted (length literals.old) (length spans.old) then no_literals literals.old else literals.old) }
    ensures spans { spans.new ≡ (if admitted (length literals.old) (length spans.old) then no_spans spans.old else spans.old) }
{
    let mut refutation = Refutation::start(literals, spans)?;
    let _ = refutation.take(list, 0, literals, spans);
    refutation.give_up(literals, spans);
    Ok(())
}
