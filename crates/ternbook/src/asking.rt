// The call that asks for a question of a certificate.
use crate::session::Session;
use crate::stop::Stop;
use anyhow::anyhow;
use calls::{Answer, ClauseLine, Lengths};
use certificate::Cursor;
use checking::admit;
use machine::Machine;
use opening::{Claim, Opening, open};
use questions::{TraceList, trace_question};
use refusal::Refusal;
use resolution::ClauseList;
use stack::{Span, Stack};
use unrolling::{InductionList, induction_question};

// A question, whose clauses follow its answer.
#[derive(Clone, Copy)]
pub(crate) struct Asked<'a> {
    pub(crate) line: &'a [u8],
    pub(crate) rule: u32,
    pub(crate) file: &'a [u8],
    pub(crate) number: u32,
}

impl Asked<'_> {
    // The place of the question among those of the certificate, from 0; there is none for number 0.
    fn place(&self) -> Option<usize> {
        (self.number as usize).checked_sub(1)
    }
}

// More literals than any clause of a question has.
const LONGEST: usize = 65_536;

// Claim and frames of a certificate, read into areas of the lent lengths.
fn read_opening<M: Machine>(
    machine: &M,
    rule: u32,
    bytes: &[u8],
    lengths: Lengths,
    literals: &mut [u32],
    spans: &mut [Span],
) -> Result<Opening, Refusal> {
    admit(
        machine,
        rule,
        lengths.bytes as usize,
        literals.len(),
        spans.len(),
    )?;
    let mut cursor = Cursor::new(bytes);
    Ok(open(machine, &mut cursor, literals, spans)?)
}

impl Session<'_> {
    // Answers with a list of clauses, each on a line of its own.
    fn list_clauses<L: ClauseList>(
        &mut self,
        line: &[u8],
        list: &L,
        used: Stack,
        literals: &mut [u32],
        spans: &[Span],
    ) -> anyhow::Result<()> {
        let clauses = list.count(literals, spans);
        self.say(line, &Answer::Question { clauses })?;
        for number in 0..clauses {
            let mut stack = used;
            // never refused: behind the lent area there is room for the longest clause
            list.copy(number, &mut stack, literals, spans)
                .map_err(|_| anyhow!("no room for clause {number}"))?;
            let text = ClauseLine {
                number,
                literals: literals.get(used.used..stack.used).unwrap_or_default(),
            };
            println!(self.rt; "{text}")?;
        }
        Ok(())
    }

    // Answers with the question that is asked for, of an opening that was read.
    fn list_question<'a, M: Machine>(
        &mut self,
        machine: &M,
        asked: Asked<'a>,
        opening: &Opening,
        literals: &mut [u32],
        spans: &[Span],
    ) -> Result<(), Stop<'a>> {
        let (line, rule, place) = (asked.line, asked.rule as usize, asked.place());
        match opening.claim {
            Claim::Trace => {
                let question = place
                    .and_then(|place| trace_question(&opening.frames, place))
                    .ok_or(Answer::NoSuchQuestion)?;
                let list = TraceList::new(machine, &opening.frames, rule, question);
                self.list_clauses(line, &list, opening.frames.literals(), literals, spans)?;
            }
            Claim::Induction => {
                let question = place
                    .and_then(|place| induction_question(opening.size as usize, place))
                    .ok_or(Answer::NoSuchQuestion)?;
                let list = InductionList::new(machine, rule, question);
                self.list_clauses(line, &list, Stack::default(), literals, spans)?;
            }
            Claim::Counterexample => return Err(Answer::NoQuestions.into()),
        }
        Ok(())
    }

    // Answers with the question that is asked for, of the certificate that a file has.
    pub(crate) fn ask<'a, M: Machine>(
        &mut self,
        machine: &M,
        asked: Asked<'a>,
    ) -> Result<(), Stop<'a>> {
        let bytes = self.contents(asked.file)?;
        let (heap, lengths) = (self.rt.alloc(), self.lengths);
        let lent = lengths.literals as usize;
        let mut area = vec![in heap; 0u32; lent + LONGEST]?;
        let mut places = vec![in heap; Span::default(); lengths.places as usize]?;
        let (literals, spans) = (area.as_mut_slice(), places.as_mut_slice());
        let opening = read_opening(
            machine,
            asked.rule,
            &bytes,
            lengths,
            &mut literals[..lent],
            spans,
        )?;
        self.list_question(machine, asked, &opening, literals, spans)
    }
}
