// Certificates: their records, and the check of a counterexample.
#![tactic(auto)]

ghost use Rattle.std.specs.Prelude.{◌≡◌, ℕ, ◌<◌, ◌≤◌, List, length, replicate, Ok};
ghost use Rattle.certificate.specs.Counterexamples.{Counterexample, Shows};
ghost use Rattle.certificate.specs.Verdict.{finished, judged, admitted, replayed};

use areas::Cleared;
use decision::step;
use machine::Machine;
use phase::Phase;
use refusal::{CertificateFault, CertificateRefusal, DocketFault, Refusal};

mod claim;
mod cursor;
mod decision;
mod phase;
mod reading;
mod record;
mod rows;

pub use claim::Claim;
pub use cursor::Cursor;
pub use record::Record;

// After the end no byte may follow.
fn finish(cursor: &Cursor, records: usize) -> Result<usize, CertificateRefusal>
    ensures { result ≡ finished (length cursor.now.rest.now) cursor.now.offset records }
{
    if !cursor.at_end() {
        return Err(CertificateFault::OutOfPlace.at(cursor.offset(), 0));
    }
    Ok(records)
}

// Steps through the records to the end; answers how many there are.
fn run<M: Machine>(
    machine: &M,
    rule: u32,
    bytes: &[u8],
    row: &mut [u8],
) -> Result<usize, CertificateRefusal>
    requires known { rule < (M.meaning machine.now).rules }
    requires room { (M.meaning machine.now).variables ≤ length row.old }
    ensures { result ≡ judged (M.meaning machine.now) rule bytes.now }
{
    let mut cursor = Cursor::new(bytes);
    let mut phase = Phase::Opening;
    let mut records = 0;
    while phase != Phase::Closed {
        let offset = cursor.offset();
        let record = cursor
            .next()
            .ok_or(CertificateFault::NoRecord.at(offset, 0))?;
        phase = step(machine, rule, phase, record, row).map_err(|fault| fault.at(offset, 0))?;
        records += 1;
    }
    finish(&cursor, records)
}

// Is there such a rule, and has the area a byte for each variable?
pub fn admit<M: Machine>(machine: &M, rule: u32, area: usize) -> Result<(), DocketFault>
    ensures { result ≡ admitted (M.meaning machine.now) rule area }
{
    if rule as usize >= machine.rules() {
        return Err(DocketFault::NoRule);
    }
    if area < machine.variables() {
        return Err(DocketFault::UnfitArea);
    }
    Ok(())
}

// Checks a counterexample certificate for a rule of a machine, and answers how many records it has.
pub fn replay<M: Machine>(
    machine: &M,
    rule: u32,
    bytes: &[u8],
    row: &mut [u8],
) -> Result<usize, Refusal>
    ensures is { result ≡ replayed (M.meaning machine.now) rule bytes.now (length row.old) }
    ensures cleared { row.new ≡ replicate (length row.old) 0 }
    ensures shown { Shows (M.meaning machine.now) rule bytes.now (length row.old) result }
    ensures taken { (records : ℕ) → Counterexample (M.meaning machine.now) rule bytes.now (length row.old) records → result ≡ Ok records }
{
    let row = Cleared(row);
    admit(machine, rule, row.0.len())?;
    Ok(run(machine, rule, bytes, row.0)?)
}

#[cfg(test)]
mod tests;
