// One refutation of a question, read from the records of a certificate.
#![tactic(auto)]

ghost use Rattle.std.specs.Prelude.{◌≡◌, ◌+◌, ◌≤◌, true, length, IfOk, OnOk};
ghost use Rattle.resolution.specs.States.{own, fresh, Standing};
ghost use Rattle.certificate.specs.declared.record.Record.TheVariants.{RefutationEnd};
ghost use Rattle.refuting.specs.Rooms.{room_above, room_of, Ready};
ghost use Rattle.refuting.specs.Reading.{move};
ghost use Rattle.refuting.specs.Moves.{Moved};
ghost use Rattle.refuting.specs.Checked.{Checked};

use certificate::{Cursor, Record};
use refusal::{CertificateFault, CertificateRefusal};
use resolution::{ClauseList, Refutation};
use stack::{Span, Stack};

// How far both stacks are in use below a refutation.
#[derive(Clone, Copy)]
pub struct Below {
    pub literals: Stack,
    pub spans: Stack,
}

// What a record asks of the refutation; any but its own three is out of place.
fn apply<L: ClauseList>(
    refutation: &mut Refutation,
    list: &L,
    record: Record,
    literals: &mut [u32],
    spans: &mut [Span],
) -> Result<(), CertificateFault>
    ensures moved { Standing refutation.old literals.old spans.old → Moved (L.clauses list.now literals.old spans.old) refutation.old refutation.new literals.old literals.new spans.old spans.new (move (L.clauses list.now literals.old spans.old) (room_of refutation.old literals.old spans.old) (own refutation.old literals.old spans.old) «record») result }
    ensures spent { «record» ≡ RefutationEnd → OnOk result (refutation.new.spent ≡ true) }
{
    match record {
        Record::Take(number) => {
            refutation.take(list, number as usize, literals, spans)?;
        }
        Record::Resolve { left, right, pivot } => {
            refutation.resolve(left as usize, right as usize, pivot, literals, spans)?;
        }
        Record::RefutationEnd => {
            refutation.conclude(literals, spans)?.spend();
        }
        _ => return Err(CertificateFault::OutOfPlace),
    }
    Ok(())
}

// Reads the records of a refutation up to its end; answers how many it had.
fn run<L: ClauseList>(
    refutation: &mut Refutation,
    list: &L,
    cursor: &mut Cursor<'_>,
    question: u32,
    literals: &mut [u32],
    spans: &mut [Span],
) -> Result<usize, CertificateRefusal>
    requires { refutation.old ≡ fresh refutation.old.floor refutation.old.first }
    ensures checked { Ready (L.literal_mark list.now) (L.span_mark list.now) (room_of refutation.old literals.old spans.old) → Checked (L.clauses list.now literals.old spans.old) (room_of refutation.old literals.old spans.old) question cursor.old.offset cursor.old.rest.now cursor.new.rest.now literals.old literals.new spans.old spans.new result }
    ensures offset { cursor.new.offset + length cursor.new.rest.now ≡ cursor.old.offset + length cursor.old.rest.now }
    ensures spent { OnOk result (refutation.new.spent ≡ true) }
    ensures counted { IfOk result (λ records. records + cursor.old.offset ≤ cursor.new.offset) }
{
    let mut records = 0;
    loop {
        let offset = cursor.offset();
        let record = cursor
            .next()
            .ok_or(CertificateFault::NoRecord.at(offset, question))?;
        let applied = apply(refutation, list, record, literals, spans);
        applied.map_err(|fault| fault.at(offset, question))?;
        records += 1;
        if record == Record::RefutationEnd {
            return Ok(records);
        }
    }
}

// Reads one refutation of a list of clauses from the records, above what the stacks hold now; answers how many records it had.
pub fn refute_from<L: ClauseList>(
    list: &L,
    cursor: &mut Cursor<'_>,
    question: u32,
    below: Below,
    literals: &mut [u32],
    spans: &mut [Span],
) -> Result<usize, CertificateRefusal>
    ensures checked { Ready (L.literal_mark list.now) (L.span_mark list.now) (room_above below literals.old spans.old) → Checked (L.clauses list.now literals.old spans.old) (room_above below literals.old spans.old) question cursor.old.offset cursor.old.rest.now cursor.new.rest.now literals.old literals.new spans.old spans.new result }
    ensures offset { cursor.new.offset + length cursor.new.rest.now ≡ cursor.old.offset + length cursor.old.rest.now }
    ensures lengths { (length literals.new ≡ length literals.old) × (length spans.new ≡ length spans.old) }
    ensures counted { IfOk result (λ records. records + cursor.old.offset ≤ cursor.new.offset) }
{
    let mut refutation = Refutation::above(below.literals, below.spans);
    let outcome = run(&mut refutation, list, cursor, question, literals, spans);
    if outcome.is_err() {
        refutation.abandon();
    }
    outcome
}

#[cfg(test)]
mod tests;
