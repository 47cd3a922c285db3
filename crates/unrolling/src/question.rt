ghost use Rattle.std.specs.Prelude.{◌≤◌};

// What a question asks: is there a run that breaks the rule in its last row? Are there linked rows of which only the last breaks it?
#[derive(Clone, Copy)]
pub enum Kind {
    Base,
    Last,
}

// A question of an induction, about depth + 1 rows.
#[derive(Clone, Copy)]
pub struct InductionQuestion {
    pub(crate) kind: Kind,
    pub(crate) depth: usize,
    ghost shallow: { depth ≤ 64 },
}
