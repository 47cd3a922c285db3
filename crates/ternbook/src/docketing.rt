// The calls on a docket, each with its answer.
use crate::session::Session;
use crate::stop::Stop;
use calls::Answer;
use docket::Docket;
use machine::Machine;
use stack::Span;

impl Session<'_> {
    // Hands in the certificate that a file has.
    pub(crate) fn hand_in<'a, M: Machine>(
        &self,
        docket: &mut Docket<'_, M>,
        rule: u32,
        file: &'a [u8],
    ) -> Result<Answer<'a>, Stop<'a>> {
        let bytes = self.contents(file)?;
        let (heap, lengths) = (self.rt.alloc(), self.lengths);
        let mut row = vec![in heap; 0u8; lengths.bytes as usize]?;
        let mut literals = vec![in heap; 0u32; lengths.literals as usize]?;
        let mut spans = vec![in heap; Span::default(); lengths.places as usize]?;
        let accepted = docket.hand_in(
            rule,
            &bytes,
            row.as_mut_slice(),
            literals.as_mut_slice(),
            spans.as_mut_slice(),
        )?;
        Ok(Answer::Accepted {
            claim: accepted.claim,
            records: accepted.records,
        })
    }
}
