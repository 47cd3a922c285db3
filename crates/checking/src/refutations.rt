// The refutations of a claim's questions, one after another, and the end of the certificate.
ghost use Rattle.std.specs.Prelude.{◌≡◌, ℕ, ◌+◌, ◌^◌, ◌<◌, ◌≤◌, min, List, length};
ghost use Rattle.certificate.specs.declared.claim.Claim.TheVariants.{Trace, Induction};
ghost use Rattle.opening.specs.Views.{held, contents};
ghost use Rattle.question_theory.specs.Inductions.{questions_of_induction};
ghost use Rattle.questions.specs.Numbers.{questions_of};
ghost use Rattle.checking.specs.Asked.{room_above};
ghost use Rattle.checking.specs.Verdicts.{ending, refuted, refutations};
ghost use Rattle.checking.specs.Begun.{Opened, Begun, Puts};

use certificate::{Cursor, Record};
use machine::Machine;
use opening::Opening;
use questions::{TraceList, trace_question, trace_questions};
use refusal::{CertificateFault, CertificateRefusal};
use refuting::{Below, refute_from};
use resolution::ClauseList;
use stack::Span;
use unrolling::{InductionList, induction_question, induction_questions};

// The end: its record, and no byte after it; answers how many records there were.
fn finish(
    cursor: &mut Cursor<'_>,
    question: u32,
    records: usize,
) -> Result<usize, CertificateRefusal>
    requires { records ≤ cursor.old.offset }
    ensures { result ≡ ending question (cursor.old.offset + length cursor.old.rest.now) cursor.old.rest.now records }
{
    let offset = cursor.offset();
    let record = cursor
        .next()
        .ok_or(CertificateFault::NoRecord.at(offset, question))?;
    if record != Record::End {
        return Err(CertificateFault::OutOfPlace.at(offset, question));
    }
    if !cursor.at_end() {
        return Err(CertificateFault::OutOfPlace.at(cursor.offset(), question));
    }
    Ok(records + 1)
}

// A refutation of each question in turn, above the frames, and the end; answers how many records there were.
fn check_questions<L: ClauseList + Drop, F: Fn(usize) -> L>(
    opening: &Opening,
    total: usize,
    question: F,
    cursor: &mut Cursor<'_>,
    literals: &mut [u32],
    spans: &mut [Span],
) -> Result<usize, CertificateRefusal>
    requires few { total < 2 ^ 32 }
    requires callable { (number : ℕ) → number < total → F.pre question number }
    requires begun { Begun opening.now cursor.old.offset literals.old spans.old }
    ensures { (qs : List (List (List ℕ))) → Puts (F.post question) L.clauses L.literal_mark L.span_mark opening.now.frames literals.old spans.old total qs → result ≡ refuted qs (room_above (length literals.old) (length spans.old) (held opening.now.frames literals.old spans.old)) 0 (cursor.old.offset + length cursor.old.rest.now) cursor.old.rest.now opening.now.records }
{
    let below = Below {
        literals: opening.frames.literals(),
        spans: opening.frames.spans(),
    };
    let mut records = opening.records;
    for number in 0..total {
        let list = question(number);
        records += refute_from(&list, cursor, number as u32 + 1, below, literals, spans)?;
    }
    finish(cursor, total as u32, records)
}

// A refutation of each question of a trace, and the end; answers how many records there were.
pub(crate) fn check_trace<M: Machine>(
    machine: &M,
    rule: u32,
    opening: &Opening,
    cursor: &mut Cursor<'_>,
    literals: &mut [u32],
    spans: &mut [Span],
) -> Result<usize, CertificateRefusal>
    requires { Opened (M.meaning machine.now) Trace opening.now cursor.old.offset literals.old spans.old }
    ensures { result ≡ refutations (M.meaning machine.now) rule (length literals.old) (length spans.old) (contents opening.now literals.old spans.old) (cursor.old.offset + length cursor.old.rest.now) cursor.old.rest.now }
{
    let frames = &opening.frames;
    let question = |number: usize|
        requires { number < questions_of frames.now }
    {
        TraceList::new(
            machine,
            frames,
            rule as usize,
            trace_question(frames, number).unwrap(),
        )
    };
    check_questions(
        opening,
        trace_questions(frames),
        question,
        cursor,
        literals,
        spans,
    )
}

// A refutation of each question of an induction, and the end; answers how many records there were.
pub(crate) fn check_induction<M: Machine>(
    machine: &M,
    rule: u32,
    opening: &Opening,
    cursor: &mut Cursor<'_>,
    literals: &mut [u32],
    spans: &mut [Span],
) -> Result<usize, CertificateRefusal>
    requires { Opened (M.meaning machine.now) Induction opening.now cursor.old.offset literals.old spans.old }
    ensures { result ≡ refutations (M.meaning machine.now) rule (length literals.old) (length spans.old) (contents opening.now literals.old spans.old) (cursor.old.offset + length cursor.old.rest.now) cursor.old.rest.now }
{
    let k = opening.size as usize;
    let question = |number: usize|
        requires { number < length (questions_of_induction (M.meaning machine.now) rule (min k 64)) }
    {
        InductionList::new(
            machine,
            rule as usize,
            induction_question(k, number).unwrap(),
        )
    };
    check_questions(
        opening,
        induction_questions(k),
        question,
        cursor,
        literals,
        spans,
    )
}
