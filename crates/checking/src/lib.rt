// The check of a certificate for a rule of a machine.
#![tactic(auto)]

ghost use Rattle.std.specs.Prelude.{◌≡◌, ℕ, ◌+◌, length, Ok};
ghost use Rattle.certificate.specs.declared.claim.Claim.{Claim as ClaimOf};
ghost use Rattle.opening.specs.Views.{contents};
ghost use Rattle.checking.specs.Asked.{areas_of};
ghost use Rattle.checking.specs.Begun.{Opened};
ghost use Rattle.checking.specs.Lawful.{LawfulCertificate, Shows};
ghost use Rattle.checking.specs.Verdicts.{admitted, proved, verdict};

use certificate::{Cursor, replay};
use machine::Machine;
use opening::{Opening, open};
use refusal::{DocketFault, Refusal};
use refutations::{check_induction, check_trace};
use stack::{MOST_LITERALS, MOST_SPANS, Span};

mod refutations;

pub use opening::Claim;

// The claim of a lawful certificate, and how many records it has.
#[derive(Clone, Copy, PartialEq, Eq, Debug)]
pub struct Accepted {
    pub claim: Claim,
    pub records: usize,
}

// Is there such a rule, and do work areas of these lengths fit?
pub fn admit<M: Machine>(
    machine: &M,
    rule: u32,
    row: usize,
    literals: usize,
    spans: usize,
) -> Result<(), DocketFault>
    ensures { result ≡ admitted (M.meaning machine.now) rule (record { row = row; literals = literals; spans = spans }) }
{
    certificate::admit(machine, rule, row)?;
    if literals > MOST_LITERALS || spans > MOST_SPANS {
        return Err(DocketFault::UnfitArea);
    }
    Ok(())
}

// What the claim asks for: a refutation of each question, or a run that breaks the rule; answers how many records there were.
fn check_claim<M: Machine>(
    machine: &M,
    rule: u32,
    bytes: &[u8],
    opening: &Opening,
    cursor: &mut Cursor<'_>,
    row: &mut [u8],
    literals: &mut [u32],
    spans: &mut [Span],
) -> Result<usize, Refusal>
    requires opened { Opened (M.meaning machine.now) opening.now.claim opening.now cursor.old.offset literals.old spans.old }
    requires whole { cursor.old.offset + length cursor.old.rest.now ≡ length bytes.now }
    ensures { result ≡ proved (M.meaning machine.now) rule bytes.now (areas_of row.old literals.old spans.old) (contents opening.now literals.old spans.old) cursor.old.rest.now }
{
    let records = match opening.claim {
        Claim::Trace => check_trace(machine, rule, opening, cursor, literals, spans)?,
        Claim::Induction => check_induction(machine, rule, opening, cursor, literals, spans)?,
        Claim::Counterexample => replay(machine, rule, bytes, row)?,
    };
    Ok(records)
}

// Checks a certificate for a rule of a machine; answers its claim and how many records it has.
pub fn check<M: Machine>(
    machine: &M,
    rule: u32,
    bytes: &[u8],
    row: &mut [u8],
    literals: &mut [u32],
    spans: &mut [Span],
) -> Result<Accepted, Refusal>
    ensures answer { result ≡ verdict (M.meaning machine.now) rule bytes.now (areas_of row.old literals.old spans.old) }
    ensures shown { Shows (M.meaning machine.now) rule bytes.now (areas_of row.old literals.old spans.old) result }
    ensures taken { (claim : ClaimOf) (records : ℕ) → LawfulCertificate (M.meaning machine.now) rule bytes.now (areas_of row.old literals.old spans.old) claim records → result ≡ Ok (record { claim = claim; records = records }) }
{
    admit(machine, rule, row.len(), literals.len(), spans.len())?;
    let mut cursor = Cursor::new(bytes);
    let opening = open(machine, &mut cursor, literals, spans)?;
    let records = check_claim(
        machine,
        rule,
        bytes,
        &opening,
        &mut cursor,
        row,
        literals,
        spans,
    )?;
    Ok(Accepted {
        claim: opening.claim,
        records,
    })
}
