// Unrollings of a machine, and the questions of an induction, as lists of clauses.
#![tactic(auto)]

mod induction;
mod pushing;
mod question;
mod rows;

pub use induction::{InductionList, induction_question, induction_questions};
pub use question::InductionQuestion;
pub use rows::Unrolling;
