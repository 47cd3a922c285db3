// Reading a proof file.
ghost use Rattle.std.specs.Prelude.{length, IfOk};
ghost use Rattle.refutation_files.specs.ProofFiles.{NextStep, NextEnding, ProofOf};

use crate::proof_file::{Ending, ProofFile};
use certificate::{Cursor, Record};
use refute::Step;
use std::alloc::{AllocError, Global};

// The step that a record is, if it is one.
fn step_of(record: Option<Record>) -> Option<Step>
    ensures { NextStep «record» result }
{
    match record {
        Some(Record::Take(clause)) => Some(Step::Take(clause)),
        Some(Record::Resolve { left, right, pivot }) => Some(Step::Resolve { left, right, pivot }),
        _ => None,
    }
}

// How the file ends, by the record that is no step, and what is left after it.
fn ending(record: Option<Record>, rest: &Cursor) -> Ending
    ensures { NextEnding «record» (length rest.now.rest.now) result }
{
    match record {
        Some(Record::RefutationEnd) => if rest.at_end() {
            Ending::Whole
        } else {
            Ending::More
        },
        _ => Ending::Cut,
    }
}

// The steps of a proof file, and how it ends.
pub fn read_steps(heap: Global, bytes: &[u8]) -> Result<ProofFile, AllocError>
    ensures { IfOk result (λ f. ProofOf bytes.now f.steps.items f.ending) }
{
    let mut cursor = Cursor::new(bytes);
    let mut steps = Vec::new(heap);
    let mut record = cursor.next();
    while let Some(step) = step_of(record) {
        steps.push(step)?;
        record = cursor.next();
    }
    let ending = ending(record, &cursor);
    Ok(ProofFile { steps, ending })
}
