// The theory of the questions about a rule: specs and proofs alone, for the crates that put the questions.
#![tactic(auto)]
