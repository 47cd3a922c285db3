// The numbers of an AIGER header: M I L O A.
#[derive(Clone, Copy, PartialEq, Eq, Debug)]
pub struct Header {
    // M, the greatest variable
    pub maximum: u32,
    pub inputs: u32,
    pub latches: u32,
    pub outputs: u32,
    pub gates: u32,
}
