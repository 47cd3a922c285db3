// A record of a certificate: one byte of kind, then its body.
#[derive(Clone, Copy, PartialEq, Eq, Debug)]
pub enum Record {
    // 1: what is claimed (1 trace, 2 induction, 3 counterexample), and of what size
    Claim { claim: u8, size: u32 },
    // 2: a literal of a clause
    Literal(u32),
    // 3
    ClauseEnd,
    // 4
    FrameEnd,
    // 5: the number of a clause of the question
    Take(u32),
    // 6: the numbers of two clauses, and the literal on which they are resolved
    Resolve { left: u32, right: u32, pivot: u32 },
    // 7
    RefutationEnd,
    // 8: an input of a row
    Bit(u8),
    // 9
    RowEnd,
    // 10
    End,
}
