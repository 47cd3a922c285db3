use certificate::Claim;

// Where the reading of an opening stands.
#[derive(Clone, Copy)]
pub enum Phase {
    // before the claim
    Opening,
    // in the frames of a trace
    Framing { size: u32 },
    // after the opening
    Opened { claim: Claim, size: u32 },
}
