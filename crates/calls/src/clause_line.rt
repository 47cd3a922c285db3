// A clause of a question, as the program prints it.
ghost use Rattle.std.specs.Prelude.{Some};
ghost use Rattle.calls.specs.Answers.{clause_text};

use std::fmt;

// A clause and its number.
#[derive(Clone, Copy)]
pub struct ClauseLine<'a> {
    pub number: usize,
    pub literals: &'a [u32],
}

impl fmt::Display for ClauseLine<'_> {
    ghost output = { λ x. Some (clause_text x.number x.literals.now) };

    fn fmt<W: fmt::Write>(&self, f: &mut fmt::Formatter<W>) -> fmt::Result {
        let ClauseLine { number, literals } = *self;
        write!(f, "  {number}:")?;
        for literal in literals {
            write!(f, " {literal}")?;
        }
        Ok(())
    }
}
