ghost use Rattle.std.specs.Prelude.{◌≡◌, ℕ, ◌≤◌, length, take, slice_index_or};

use stack::Stack;

// How many clauses, and how many literals, stand before the end of a frame.
#[derive(Clone, Copy, Default)]
pub struct Mark {
    pub clauses: usize,
    pub literals: usize,
}

// Frames of clauses on two stacks: those that are ended, then an open one, then an open clause.
#[derive(Clone, Copy)]
pub struct Frames {
    // the first `count` say where each ended frame ends
    pub(crate) marks: [Mark; 65],
    pub(crate) count: usize,
    // the literals of the clauses that are ended
    pub(crate) ended: usize,
    pub(crate) literals: Stack,
    pub(crate) spans: Stack,
    // at most 65 frames, at most 1,048,576 literals, at most 65,536 clauses; no mark is beyond what is ended
    ghost few: { count ≤ 65 },
    ghost whole: { length marks ≡ 65 },
    ghost limits: { (ended ≤ literals.used) × (literals.used ≤ 1048576) × (spans.used ≤ 65536) },
    ghost low: { (i : ℕ) → ((slice_index_or (take count marks) i (record { clauses = 0; literals = 0 })).clauses ≤ spans.used) × ((slice_index_or (take count marks) i (record { clauses = 0; literals = 0 })).literals ≤ ended) },
}
