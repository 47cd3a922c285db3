// The calls that check a file, each with its answer.
use crate::session::Session;
use crate::stop::Stop;
use calls::Answer;
use certificate::replay;
use machine::Machine;
use refutation_files::refute_files;
use stack::Span;

impl Session<'_> {
    // Checks the counterexample certificate that a file has.
    pub(crate) fn replay<'a, M: Machine>(
        &self,
        machine: &M,
        rule: u32,
        file: &'a [u8],
    ) -> Result<Answer<'a>, Stop<'a>> {
        let bytes = self.contents(file)?;
        let mut row = vec![in self.rt.alloc(); 0u8; self.lengths.bytes as usize]?;
        let records = replay(machine, rule, &bytes, row.as_mut_slice())?;
        Ok(Answer::Broken { records })
    }

    // Carries out the proof that one file has on the clauses that another has.
    pub(crate) fn refute<'a>(
        &self,
        clauses: &'a [u8],
        proof: &'a [u8],
    ) -> Result<Answer<'a>, Stop<'a>> {
        let list = self.contents(clauses)?;
        let steps = self.contents(proof)?;
        let heap = self.rt.alloc();
        let mut literals = vec![in heap; 0u32; self.lengths.literals as usize]?;
        let mut spans = vec![in heap; Span::default(); self.lengths.places as usize]?;
        let records = refute_files(
            heap,
            &list,
            &steps,
            literals.as_mut_slice(),
            spans.as_mut_slice(),
        )?;
        Ok(Answer::Refuted { records })
    }
}
