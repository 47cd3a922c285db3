// Clauses by value, on their way onto a stack of literals.
ghost use Rattle.std.specs.Prelude.{◌≡◌, [], ◌∷◌};
ghost use Rattle.machine.specs.Clauses.{listed};
ghost use Rattle.unrolling.specs.Pushes.{PushedClause};

use machine::Clause;
use refusal::RefutationFault;
use stack::Stack;

// Pushes a clause whole, if there is one and it fits.
pub(crate) fn push_clause(
    clause: Option<Clause>,
    stack: &mut Stack,
    literals: &mut [u32],
) -> Result<(), RefutationFault>
    ensures { PushedClause clause stack.old.used stack.new.used literals.old literals.new result }
{
    let clause = clause.ok_or(RefutationFault::NoClause)?;
    stack.push_all(literals, clause.as_slice())?;
    Ok(())
}

// The clause of one literal.
pub(crate) fn unit(literal: u32) -> Clause
    ensures { listed result ≡ literal ∷ [] }
{
    Clause::of(&[literal])
}

// The clause of two.
pub(crate) fn pair(first: u32, second: u32) -> Clause
    ensures { listed result ≡ first ∷ second ∷ [] }
{
    Clause::of(&[first, second])
}
