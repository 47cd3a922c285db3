// What holds in the start of a machine.
ghost use Rattle.std.specs.Prelude.{◌≡◌};
ghost use Rattle.resolution.specs.Clauses.{literal_true, holds};
ghost use Rattle.question_theory.specs.Traces.{state_setting};

use machine::Machine;

// Whether a literal of a state bit is true in the start.
fn is_true<M: Machine>(machine: &M, literal: u32) -> bool
    ensures { result ≡ literal_true (state_setting (M.meaning machine.now) (M.meaning machine.now).start) literal }
{
    let variable = (literal / 2) as usize;
    let bit = variable.saturating_sub(1 + machine.inputs());
    resolution::is_true(literal, machine.start_bit(bit).unwrap_or(false))
}

// Whether a clause holds in the start: one of its literals is true there.
pub(crate) fn holds<M: Machine>(machine: &M, clause: &[u32]) -> bool
    ensures { result ≡ holds (state_setting (M.meaning machine.now) (M.meaning machine.now).start) clause.now }
{
    clause.iter().any(|literal| is_true(machine, *literal))
}
