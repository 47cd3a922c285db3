use certificate::Claim;
use frames::Frames;

// The opening of a certificate.
#[derive(Clone, Copy)]
pub struct Opening {
    pub claim: Claim,
    // of a trace how many frames come after the first, of an induction how many rows it looks back, of a counterexample how many rows
    pub size: u32,
    // those of a trace; else none
    pub frames: Frames,
    // how many records were read
    pub records: usize,
}
