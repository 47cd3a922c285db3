// Literals, clauses, lists of clauses, and refutations by resolution.
#![tactic(auto)]

ghost use Rattle.std.specs.Prelude.{◌≡◌, ℕ, ◌/◌, Bool};
ghost use Rattle.resolution.specs.Clauses.{literal_true, denial};
ghost use Rattle.resolution.specs.Lists.{above};

mod alone;
mod lists;
mod merging;
mod refutation;
mod table;

pub use lists::ClauseList;
pub use refutation::{Refutation, Refuted};
pub use stack::{Bounds, Span, Stack};
pub use table::ClauseTable;

// The other literal of the same variable.
#[tactic(auto, unfolding(crate::specs::Clauses::denial))]
pub fn deny(literal: u32) -> u32
    ensures { result ≡ denial literal }
{
    if literal % 2 == 0 {
        literal + 1
    } else {
        literal - 1
    }
}

// What a literal is where its variable is `set`.
pub fn is_true(literal: u32, set: bool) -> bool
    ensures { (v : ℕ → Bool) → v (literal / 2) ≡ set → result ≡ literal_true v literal }
{
    set == (literal % 2 == 0)
}

// Whether a literal is above the last one of a clause.
#[tactic(auto, unfolding(crate::specs::Lists::above))]
pub fn is_above(clause: &[u32], literal: u32) -> bool
    ensures { result ≡ above clause.now literal }
{
    clause.last().is_none_or(|last| *last < literal)
}
