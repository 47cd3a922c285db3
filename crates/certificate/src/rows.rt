// The rows of a run, one after another in the lent byte area: inputs from byte 1 on, then the state.
ghost use Rattle.std.specs.Prelude.{◌≡◌, ℕ, ◌+◌, ◌/◌, ◌<◌, ◌≤◌, length, slice_index};
ghost use Rattle.resolution.specs.Clauses.{literal_true};
ghost use Rattle.machine.specs.Meaning.{lit};
ghost use Rattle.machine.specs.Rows.{byte, bits, row_inputs, row_state, Fillable};
ghost use Rattle.certificate.specs.Area.{low, SmallState};

use machine::Machine;
use resolution::is_true;

// Makes the start the state of the row.
pub(crate) fn begin<M: Machine>(machine: &M, row: &mut [u8])
    requires { (M.meaning machine.now).variables ≤ length row.old }
    ensures state { row_state (M.meaning machine.now) row.new ≡ (M.meaning machine.now).start }
    ensures small { SmallState (M.meaning machine.now) row.new }
{
    let first = 1 + machine.inputs();
    let end = first + machine.state_bits();
    for (bit, byte) in row[first..end].iter_mut().enumerate() {
        *byte = machine.start_bit(bit).unwrap() as u8;
    }
}

// The value of a literal, by the lowest bit of its variable's byte.
fn value(row: &[u8], literal: u32) -> bool
    requires { literal / 2 < length row.now }
    ensures { result ≡ literal_true (low row.now) literal }
{
    is_true(literal, row[(literal / 2) as usize] % 2 == 1)
}

// Writes the next state beside the state: into bit 1 of its bytes, while bit 0 is still read.
fn mark_next<M: Machine>(machine: &M, row: &mut [u8])
    requires room { (M.meaning machine.now).variables ≤ length row.old }
    requires small { (k : ℕ) → k < (M.meaning machine.now).variables → slice_index row.old k < 2 }
    ensures { (k : ℕ) → k < (M.meaning machine.now).state_bits → slice_index row.new (1 + (M.meaning machine.now).inputs + k) / 2 ≡ byte (lit (bits row.old) (slice_index (M.meaning machine.now).next k)) }
{
    let first = 1 + machine.inputs();
    for bit in 0..machine.state_bits() {
        let literal = machine.next_literal(bit).unwrap();
        row[first + bit] += 2 * (value(row, literal) as u8);
    }
}

// Makes bit 1 of each byte its only bit.
fn shift(bytes: &mut [u8])
    ensures { (k : ℕ) → slice_index bytes.new k ≡ slice_index bytes.old k / 2 }
{
    for byte in bytes.iter_mut() {
        *byte /= 2;
    }
}

// Makes the step of the row the state of the row.
pub(crate) fn advance<M: Machine>(machine: &M, row: &mut [u8])
    requires { Fillable (M.meaning machine.now) row.old }
    ensures state { row_state (M.meaning machine.now) row.new ≡ (M.meaning machine.now).step (row_state (M.meaning machine.now) row.old) (row_inputs (M.meaning machine.now) row.old) }
    ensures small { SmallState (M.meaning machine.now) row.new }
{
    // never refused: a byte for each variable is there, those of inputs and state are 0 or 1
    machine.fill(row).unwrap();
    mark_next(machine, row);
    let first = 1 + machine.inputs();
    shift(&mut row[first..first + machine.state_bits()]);
}

// Whether the rule is broken in the row.
pub(crate) fn broken<M: Machine>(machine: &M, rule: u32, row: &mut [u8]) -> bool
    requires fillable { Fillable (M.meaning machine.now) row.old }
    requires known { rule < (M.meaning machine.now).rules }
    ensures { result ≡ (M.meaning machine.now).broken rule (row_state (M.meaning machine.now) row.old) (row_inputs (M.meaning machine.now) row.old) }
{
    // never refused: a byte for each variable is there, those of inputs and state are 0 or 1
    machine.fill(row).unwrap();
    let literal = machine.rule_literal(rule as usize).unwrap();
    value(row, literal)
}
