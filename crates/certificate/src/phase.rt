// Where the check of a counterexample stands.
#[derive(Clone, Copy, PartialEq, Eq, Debug)]
pub enum Phase {
    // before the claim
    Opening,
    // in a row: how many rows are yet to end, this one counted, and how many of its bits are set
    Row { left: u32, bits: usize },
    // after the last row
    Closing,
    // after the end
    Closed,
}
