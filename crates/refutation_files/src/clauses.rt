// Reading a clause file.
ghost use Rattle.std.specs.Prelude.{◌≡◌, ◌-◌, ◌≤◌, IfOk, MatchResult};
ghost use Rattle.std.specs.List.{AllByRecursion};
ghost use Rattle.resolution.specs.Lists.{Proper};
ghost use Rattle.stack.specs.Runs.{runs};
ghost use Rattle.refutation_files.specs.ClauseFiles.{Holds, ClauseRead, Unlisted};

use crate::clause_file::ClauseFile;
use crate::unproved::Unproved;
use certificate::{Cursor, Record};
use resolution::is_above;
use stack::Span;
use std::alloc::{AllocError, Global};

// Reads one clause, and puts its literals after the others.
fn read_clause(cursor: &mut Cursor, literals: &mut Vec<u32>) -> Result<(), Unproved>
    ensures { ClauseRead cursor.old.rest.now cursor.new.rest.now literals.old.items literals.new.items result }
{
    let start = literals.len();
    loop {
        let record = cursor.next().ok_or(Unproved::NotAClauseList)?;
        match record {
            Record::Literal(literal) => {
                if !is_above(&literals.as_slice()[start..], literal) {
                    return Err(Unproved::NotAClauseList);
                }
                literals.push(literal).map_err(AllocError::from)?;
            }
            Record::ClauseEnd => return Ok(()),
            _ => return Err(Unproved::NotAClauseList),
        }
    }
}

// The span of the literals from a place up to another; literals past 2^32 cannot be spanned, and are refused as memory that lacks.
fn span(start: usize, end: usize) -> Result<Span, AllocError>
    requires { start ≤ end }
    ensures { IfOk result (λ s. (s.start ≡ start) × (s.length ≡ end - start)) }
{
    let end = u32::try_from(end).map_err(|_| AllocError)?;
    let start = start as u32;
    Ok(Span {
        start,
        length: end - start,
    })
}

// The clauses of a file, where the bytes are those of a list of rising clauses.
pub fn read_clauses(heap: Global, bytes: &[u8]) -> Result<ClauseFile, Unproved>
    ensures { MatchResult result (λ f. Holds bytes.now f.literals.items (runs f.literals.items f.spans.items) × AllByRecursion (Proper f.literals.items) f.spans.items) (Unlisted bytes.now) }
{
    let mut cursor = Cursor::new(bytes);
    let mut literals = Vec::new(heap);
    let mut spans = Vec::new(heap);
    while !cursor.at_end() {
        let start = literals.len();
        read_clause(&mut cursor, &mut literals)?;
        let clause = span(start, literals.len())?;
        spans.push(clause).map_err(AllocError::from)?;
    }
    Ok(ClauseFile { literals, spans })
}
