// What a call answers, as the program prints it.
ghost use Rattle.std.specs.Prelude.{◌≡◌, Some};
ghost use Rattle.refusal.specs.Numbers.{told};
ghost use Rattle.calls.specs.declared.answer.Answer.TheVariants.{Refused};
ghost use Rattle.calls.specs.Answers.{counts_text, areas_text, answer_text, is_carried_out};

use certificate::Claim;
use docket::{Account, Standing, Tally};
use refusal::{Refusal, Told};
use std::fmt;

// The counts of an opened machine.
#[derive(Clone, Copy)]
pub struct Counts {
    pub inputs: usize,
    pub state_bits: usize,
    pub rules: usize,
    pub variables: usize,
    pub clauses: usize,
}

// The lengths of the work areas that calls are lent.
#[derive(Clone, Copy)]
pub struct Lengths {
    pub bytes: u32,
    pub literals: u32,
    pub places: u32,
}

#[derive(Clone, Copy)]
pub enum Answer<'a> {
    Opened(Counts),
    Lent(Lengths),
    Broken { records: usize },
    // a question of so many clauses, which follow
    Question { clauses: usize },
    NoQuestions,
    NoSuchQuestion,
    Refuted { records: usize },
    NotAClauseList,
    NotARefutation,
    Accepted { claim: Claim, records: usize },
    Found(Standing),
    Counted(Tally),
    Struck,
    Listed(Account),
    Refused(Told),
    NoMachine,
    CannotRead(&'a str),
    NotUnderstood,
}

impl Answer<'_> {
    // Whether the call was carried out: a refusal is an answer, too, and so is what a file is not.
    pub fn carried_out(&self) -> bool
        ensures { result ≡ is_carried_out self.now }
    {
        !matches!(
            self,
            Answer::NoMachine | Answer::CannotRead(_) | Answer::NotUnderstood
        )
    }
}

// The answer to a call that is refused.
impl From<Refusal> for Answer<'_> {
    ghost from_gives = { λ refusal answer. answer ≡ Refused (told refusal) };

    fn from(refusal: Refusal) -> Self {
        Answer::Refused(refusal.told())
    }
}

impl fmt::Display for Counts {
    ghost output = { λ x. Some (counts_text x) };

    fn fmt<W: fmt::Write>(&self, f: &mut fmt::Formatter<W>) -> fmt::Result {
        let Counts {
            inputs,
            state_bits,
            rules,
            variables,
            clauses,
        } = *self;
        write!(
            f,
            "{inputs} inputs, {state_bits} state bits, {rules} rules, {variables} variables, {clauses} clauses"
        )
    }
}

impl fmt::Display for Lengths {
    ghost output = { λ x. Some (areas_text x) };

    fn fmt<W: fmt::Write>(&self, f: &mut fmt::Formatter<W>) -> fmt::Result {
        let Lengths {
            bytes,
            literals,
            places,
        } = *self;
        write!(f, "{bytes} bytes, {literals} literals, {places} places")
    }
}

impl fmt::Display for Answer<'_> {
    ghost output = { λ x. Some (answer_text x) };

    fn fmt<W: fmt::Write>(&self, f: &mut fmt::Formatter<W>) -> fmt::Result {
        match self {
            Answer::Opened(counts) => write!(f, "opened: {counts}"),
            Answer::Lent(lengths) => write!(f, "{lengths}"),
            Answer::Broken { records } => write!(f, "broken, {records} records"),
            Answer::Question { clauses } => write!(f, "{clauses} clauses"),
            Answer::NoQuestions => write!(f, "no questions"),
            Answer::NoSuchQuestion => write!(f, "no such question"),
            Answer::Refuted { records } => write!(f, "refuted, {records} records"),
            Answer::NotAClauseList => write!(f, "not a clause list"),
            Answer::NotARefutation => write!(f, "not a refutation"),
            Answer::Accepted { claim, records } => write!(f, "accepted {claim}, {records} records"),
            Answer::Found(standing) => write!(f, "{standing}"),
            Answer::Counted(tally) => write!(f, "{tally}"),
            Answer::Struck => write!(f, "struck"),
            Answer::Listed(account) => write!(f, "{account}"),
            Answer::Refused(told) => write!(f, "refused {told}"),
            Answer::NoMachine => write!(f, "no machine"),
            Answer::CannotRead(file) => write!(f, "cannot read {file}"),
            Answer::NotUnderstood => write!(f, "not understood"),
        }
    }
}
