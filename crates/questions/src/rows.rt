// The clauses of one row, and of two that follow one another.
ghost use Rattle.std.specs.Prelude.{◌≡◌, ◌≤◌, min, length};
ghost use Rattle.resolution.specs.Clauses.{denial};
ghost use Rattle.resolution.specs.Lists.{CopiedAs};
ghost use Rattle.question_theory.specs.Unrolling.{moved, unroll};

use machine::Machine;
use refusal::RefutationFault;
use resolution::{ClauseList, deny};
use stack::{Span, Stack};
use unrolling::Unrolling;

// How many clauses depth + 1 rows have.
pub(crate) fn count_rows<M: Machine>(
    machine: &M,
    depth: usize,
    literals: &[u32],
    spans: &[Span],
) -> usize
    requires { depth ≤ 1 }
    ensures size { result ≡ length (unroll (M.meaning machine.now) depth) }
    ensures few { result ≤ 163840 }
{
    Unrolling::new(machine, depth).count(literals, spans)
}

// Copies a clause of depth + 1 rows.
pub(crate) fn copy_row<M: Machine>(
    machine: &M,
    depth: usize,
    number: usize,
    stack: &mut Stack,
    literals: &mut [u32],
    spans: &[Span],
) -> Result<(), RefutationFault>
    requires { depth ≤ 1 }
    ensures { CopiedAs (unroll (M.meaning machine.now) depth) number stack.old.used stack.new.used literals.old literals.new result }
{
    Unrolling::new(machine, depth).copy(number, stack, literals, spans)
}

// The denial of a literal in the next row; no literal is moved beyond the highest.
pub(crate) fn deny_next<M: Machine>(machine: &M, literal: u32) -> u32
    ensures { result ≡ denial (min (moved (M.meaning machine.now) 1 literal) 4294967295) }
{
    let by = 2 * machine.variables() as u32;
    deny(literal.saturating_add(by))
}
