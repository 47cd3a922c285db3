// Why a call ends before it is carried out.
use crate::session::Load;
use calls::Answer;
use refusal::{DocketFault, Refusal};
use refutation_files::Unproved;
use std::alloc::AllocError;

#[derive(Drop)]
pub(crate) enum Stop<'a> {
    // with an answer that says why
    Answered(Answer<'a>),
    // since its line opens a machine
    Opens(Load<'a>),
    // since the program cannot go on
    Failed(anyhow::Error),
}

impl<'a> From<Answer<'a>> for Stop<'a> {
    fn from(answer: Answer<'a>) -> Self {
        Stop::Answered(answer)
    }
}

impl From<Refusal> for Stop<'_> {
    fn from(refusal: Refusal) -> Self {
        Stop::Answered(refusal.into())
    }
}

impl From<DocketFault> for Stop<'_> {
    fn from(fault: DocketFault) -> Self {
        Refusal::from(fault).into()
    }
}

impl From<Unproved> for Stop<'_> {
    fn from(unproved: Unproved) -> Self {
        match unproved {
            Unproved::NotAClauseList => Stop::Answered(Answer::NotAClauseList),
            Unproved::NotARefutation => Stop::Answered(Answer::NotARefutation),
            Unproved::Refused(refusal) => refusal.into(),
            Unproved::NoMemory(error) => error.into(),
        }
    }
}

impl From<AllocError> for Stop<'_> {
    fn from(error: AllocError) -> Self {
        Stop::Failed(error.into())
    }
}

impl From<anyhow::Error> for Stop<'_> {
    fn from(error: anyhow::Error) -> Self {
        Stop::Failed(error)
    }
}
