// The steps of a refutation.

// Taking a clause of the list over by its number, or resolving two own clauses on a literal of the left one.
#[derive(Clone, Copy, PartialEq, Eq, Debug)]
pub enum Step {
    Take(u32),
    Resolve { left: u32, right: u32, pivot: u32 },
}
