// What a record does: the next phase, or the fault of the first question that is answered no.
ghost use Rattle.std.specs.Prelude.{◌≡◌, ◌+◌, ◌<◌, ◌≤◌, length};
ghost use Rattle.machine.specs.Meaning.{Meaning};
ghost use Rattle.machine.specs.Rows.{row_state, row_inputs, Fillable};
ghost use Rattle.certificate.specs.Area.{part, SmallInputs, SmallState};
ghost use Rattle.certificate.specs.Steps.{claimed, bit_set, row_ended, step};
ghost use Rattle.certificate.specs.Views.{view, seen, Steady, Steadily};

use crate::phase::Phase;
use crate::{Claim, Record, rows};
use machine::Machine;
use refusal::CertificateFault;

// The claim: a counterexample of 1 to 4,096 rows.
fn open<M: Machine>(
    machine: &M,
    claim: u8,
    size: u32,
    row: &mut [u8],
) -> Result<Phase, CertificateFault>
    requires { (M.meaning machine.now).variables ≤ length row.old }
    ensures is { seen (M.meaning machine.now) result row.new ≡ claimed (M.meaning machine.now) claim size }
    ensures steady { Steadily (M.meaning machine.now) result row.new }
{
    let claim = Claim::try_from(claim)?;
    if claim != Claim::Counterexample || !(1..=claim.most()).contains(&size) {
        return Err(CertificateFault::WrongNumber);
    }
    rows::begin(machine, row);
    Ok(Phase::Row {
        left: size,
        bits: 0,
    })
}

// One bit more of a row that lacks bits.
fn set_bit(value: u8, left: u32, bits: usize, row: &mut [u8]) -> Result<Phase, CertificateFault>
    requires { 1 + bits < length row.old }
    ensures is { (m : Meaning) → bits < m.inputs → seen m result row.new ≡ bit_set m value left (part 1 bits row.old) (row_state m row.old) }
    ensures steady { (m : Meaning) → bits < m.inputs → SmallInputs bits row.old → SmallState m row.old → Steadily m result row.new }
{
    // a bit is 0 or 1
    if value > 1 {
        return Err(CertificateFault::WrongNumber);
    }
    row[1 + bits] = value;
    Ok(Phase::Row {
        left,
        bits: bits + 1,
    })
}

// The end of a row with all its bits.
fn end_row<M: Machine>(
    machine: &M,
    rule: u32,
    left: u32,
    row: &mut [u8],
) -> Result<Phase, CertificateFault>
    requires known { rule < (M.meaning machine.now).rules }
    requires fillable { Fillable (M.meaning machine.now) row.old }
    ensures is { seen (M.meaning machine.now) result row.new ≡ row_ended (M.meaning machine.now) rule left (row_inputs (M.meaning machine.now) row.old) (row_state (M.meaning machine.now) row.old) }
    ensures steady { Steadily (M.meaning machine.now) result row.new }
{
    if left > 1 {
        rows::advance(machine, row);
        return Ok(Phase::Row {
            left: left - 1,
            bits: 0,
        });
    }
    if !rows::broken(machine, rule, row) {
        return Err(CertificateFault::Unbroken);
    }
    Ok(Phase::Closing)
}

// One record.
pub(crate) fn step<M: Machine>(
    machine: &M,
    rule: u32,
    phase: Phase,
    record: Record,
    row: &mut [u8],
) -> Result<Phase, CertificateFault>
    requires known { rule < (M.meaning machine.now).rules }
    requires room { (M.meaning machine.now).variables ≤ length row.old }
    requires steady { Steady (M.meaning machine.now) phase row.old }
    ensures is { seen (M.meaning machine.now) result row.new ≡ step (M.meaning machine.now) rule (view (M.meaning machine.now) phase row.old) «record» }
    ensures steady { Steadily (M.meaning machine.now) result row.new }
{
    let inputs = machine.inputs();
    match (record, phase) {
        (Record::Claim { claim, size }, Phase::Opening) => open(machine, claim, size, row),
        (Record::Bit(value), Phase::Row { left, bits }) if bits < inputs => set_bit(
            value, left, bits, row,
        ),
        (Record::RowEnd, Phase::Row { left, bits }) if bits == inputs => end_row(
            machine, rule, left, row,
        ),
        (Record::End, Phase::Closing) => Ok(Phase::Closed),
        _ => Err(CertificateFault::OutOfPlace),
    }
}
