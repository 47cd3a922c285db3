// The worked circuit: one input, and two state bits that are false in the start: state literals 4 to 7. Seven variables and ten clauses; rule 1 is literal 6.
use aiger::Header;

pub const HEADER: Header = Header {
    maximum: 6,
    inputs: 1,
    latches: 2,
    outputs: 2,
    gates: 3,
};

pub static AREA: [u32; 10] = [9, 10, 12, 6, 5, 3, 4, 2, 6, 5];
