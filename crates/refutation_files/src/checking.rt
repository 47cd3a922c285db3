// Carrying out a proof file on a clause file.
ghost use Rattle.std.specs.Prelude.{◌≡◌, ◌+◌, ◌^◌, ◌<◌, length, if◌then◌else◌};
ghost use Rattle.resolution.specs.Outcomes.{admitted};
ghost use Rattle.resolution.specs.States.{no_literals, no_spans};
ghost use Rattle.refutation_files.specs.declared.proof_file.Ending.TheVariants.{Whole};
ghost use Rattle.refutation_files.specs.Verdicts.{judged, ComesTo, reached};

use crate::clauses::read_clauses;
use crate::proof_file::Ending;
use crate::steps::read_steps;
use crate::unproved::Unproved;
use refusal::{Refusal, RefutationFault};
use refute::refute;
use resolution::ClauseTable;
use stack::Span;
use std::alloc::Global;

// The verdict, by what the steps came to and how the proof file ends.
fn judge(outcome: Result<usize, Refusal>, ending: Ending, steps: usize) -> Result<usize, Unproved>
    requires { ending ≡ Whole → steps + 1 < 2 ^ 64 }
    ensures { result ≡ judged outcome ending steps }
{
    match (outcome, ending) {
        (Ok(_), Ending::Whole) => Ok(steps + 1),
        (Ok(_), Ending::Cut | Ending::More) => Err(Unproved::NotARefutation),
        (Err(Refusal::Refutation(RefutationFault::NotRefuted)), Ending::Cut) => Err(
            Unproved::NotARefutation,
        ),
        (Err(refusal), _) => Err(refusal.into()),
    }
}

// Reads both files, and carries out the proof on the clauses in the areas that are lent; answers how many records the proof has.
pub fn refute_files(
    heap: Global,
    clauses: &[u8],
    proof: &[u8],
    literals: &mut [u32],
    spans: &mut [Span],
) -> Result<usize, Unproved>
    ensures verdict { ComesTo clauses.now proof.now (length literals.old) (length spans.old) result }
    ensures literals { literals.new ≡ reached result (if admitted (length literals.old) (length spans.old) then no_literals literals.old else literals.old) literals.old }
    ensures spans { spans.new ≡ reached result (if admitted (length literals.old) (length spans.old) then no_spans spans.old else spans.old) spans.old }
{
    let list = read_clauses(heap, clauses)?;
    let table = ClauseTable::new(list.literals.as_slice(), list.spans.as_slice()).ok_or(
        Unproved::NotAClauseList,
    )?;
    let file = read_steps(heap, proof)?;
    let outcome = refute(&table, file.steps.as_slice(), literals, spans);
    judge(outcome, file.ending, file.steps.len())
}
