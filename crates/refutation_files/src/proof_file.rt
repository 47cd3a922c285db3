use refute::Step;

// The steps of a proof file up to the first record that is none, and what stands there.
#[derive(Drop)]
pub struct ProofFile {
    pub steps: Vec<Step>,
    pub ending: Ending,
}

#[derive(Clone, Copy, PartialEq, Eq, Debug)]
pub enum Ending {
    // the end of the refutation, and no byte after it
    Whole,
    // neither a whole step nor the end of the refutation
    Cut,
    // the end of the refutation, and bytes after it
    More,
}
