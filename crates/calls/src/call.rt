// One call of the program.
use crate::answer::Lengths;

#[derive(Clone, Copy)]
pub enum Call<'a> {
    // opens the circuit that the file has
    Circuit {
        file: &'a [u8],
    },
    // opens the step table that the file has
    Table {
        file: &'a [u8],
    },
    // lends work areas of these lengths from now on
    Areas(Lengths),
    // checks the counterexample certificate in the file for a rule
    Replay {
        rule: u32,
        file: &'a [u8],
    },
    // asks for a question of the certificate in the file for a rule, by its number from 1
    Question {
        rule: u32,
        file: &'a [u8],
        number: u32,
    },
    // checks that the proof in one file refutes the clauses in another
    Refute {
        clauses: &'a [u8],
        proof: &'a [u8],
    },
    // hands in the certificate in the file for a rule
    HandIn {
        rule: u32,
        file: &'a [u8],
    },
    // asks for the standing of a rule
    LookUp {
        rule: u32,
    },
    // asks for the docket's counts
    Tally,
    // makes a rule open again
    Strike {
        rule: u32,
    },
    // asks for every rule's standing and the counts
    Account,
}

// The word that a call begins with.
#[derive(Clone, Copy)]
pub(crate) enum Verb {
    Circuit,
    Table,
    Areas,
    Replay,
    Question,
    Refute,
    Hand,
    Look,
    Tally,
    Strike,
    Account,
}
