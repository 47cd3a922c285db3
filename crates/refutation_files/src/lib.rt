// The two files of a lone refutation: a list of clauses, and the steps that refute it.
#![tactic(auto)]

mod checking;
mod clause_file;
mod clauses;
mod proof_file;
mod steps;
mod unproved;

pub use checking::refute_files;
pub use clause_file::ClauseFile;
pub use clauses::read_clauses;
pub use proof_file::{Ending, ProofFile};
pub use steps::read_steps;
pub use unproved::Unproved;

#[cfg(test)]
mod tests;
