// The resolvent of two clauses of one area, in one merge pass.
ghost use Rattle.std.specs.Prelude.{◌≡◌, ℕ, ◌+◌, ◌<◌, ◌≤◌, true, false, List, [], ◌∷◌, ◌++◌, length, MatchOption, nat_le, slice_index};
ghost use Rattle.std.specs.Option.{option_to_list};
ghost use Rattle.stack.specs.Pushes.{placed};
ghost use Rattle.stack.specs.Runs.{part};
ghost use Rattle.resolution.specs.Clauses.{denial};
ghost use Rattle.resolution.specs.Resolvents.{contains};
ghost use Rattle.resolution.specs.Merging.{clash, rest_at, merged, Moves, LeftOf, RightOf, KeptOf};

use super::deny;
use stack::Bounds;

// Whether a clause has a literal.
fn has(literals: &[u32], clause: Bounds, literal: u32) -> bool
    requires order { clause.start ≤ clause.end }
    requires within { clause.end ≤ length literals.now }
    ensures { result ≡ contains literal (part literals.now clause.start clause.end) }
{
    literals[clause.start..clause.end].contains(&literal)
}

// The literal at a place, if that is before an end.
fn literal_before(literals: &[u32], end: usize, place: usize) -> Option<u32>
    requires { end ≤ length literals.now }
    ensures { MatchOption result (end ≤ place) (λ x. (place < end) × (x ≡ slice_index literals.now place)) }
{
    literals[..end].get(place).copied()
}

// Two clauses that are resolved: the left one without the pivot, joined with the right one without its denial.
#[derive(Clone, Copy)]
pub(super) struct Merge {
    left: Bounds,
    right: Bounds,
    pivot: u32,
    against: u32,
}

// One step of a merge: the literal to keep, and where to read on. An iterator would hold the area, which is written between the steps.
#[derive(Clone, Copy)]
struct Next {
    keep: Option<u32>,
    i: usize,
    j: usize,
}

impl Next {
    fn new(keep: Option<u32>, i: usize, j: usize) -> Next
        ensures { result ≡ record { keep = keep; i = i; j = j } }
    {
        Next { keep, i, j }
    }
}

// How far a merge goes on at two literals: it reads `left` and `right` literals, and keeps `kept`.
#[derive(Clone, Copy)]
struct Pace {
    left: usize,
    right: usize,
    kept: usize,
}

// The new literal, or the old one where none is kept.
fn chosen(kept: usize, new: u32, old: u32) -> u32
    ensures new { kept ≡ 1 → result ≡ new }
    ensures old { kept ≡ 0 → result ≡ old }
{
    if kept == 1 { new } else { old }
}

impl Merge {
    // The merge of two clauses, if the left one has the pivot, and the right one its denial.
    pub(super) fn new(literals: &[u32], left: Bounds, right: Bounds, pivot: u32) -> Option<Merge>
        requires left { (left.start ≤ left.end) × (left.end ≤ length literals.now) }
        requires right { (right.start ≤ right.end) × (right.end ≤ length literals.now) }
        ensures { MatchOption result (clash (part literals.now left.start left.end) (part literals.now right.start right.end) pivot ≡ false) (λ m. (clash (part literals.now left.start left.end) (part literals.now right.start right.end) pivot ≡ true) × (m ≡ record { left = left; right = right; pivot = pivot; against = denial pivot })) }
    {
        let against = deny(pivot);
        (has(literals, left, pivot) && has(literals, right, against)).then_some(Merge {
            left,
            right,
            pivot,
            against,
        })
    }

    // One step, where both clauses are read up to these places.
    fn step(self, literals: &[u32], i: usize, j: usize) -> Option<Next>
        requires left { (i ≤ self.left.end) × (self.left.end ≤ length literals.now) }
        requires right { (j ≤ self.right.end) × (self.right.end ≤ length literals.now) }
        ensures { MatchOption result (rest_at self literals.now i j ≡ []) (λ n. (i ≤ n.i) × (n.i ≤ self.left.end) × (j ≤ n.j) × (n.j ≤ self.right.end) × (i + j < n.i + n.j) × (rest_at self literals.now i j ≡ option_to_list n.keep ++ rest_at self literals.now n.i n.j)) }
    {
        let x = literal_before(literals, self.left.end, i);
        let y = literal_before(literals, self.right.end, j);
        match (x, y) {
            (None, None) => None,
            (Some(x), None) => Some(Next::new((x != self.pivot).then_some(x), i + 1, j)),
            (None, Some(y)) => Some(Next::new((y != self.against).then_some(y), i, j + 1)),
            // Branches here: this step only counts, or goes through what the loop of `write` left over.
            (Some(x), Some(_)) if x == self.pivot => Some(Next::new(None, i + 1, j)),
            (Some(_), Some(y)) if y == self.against => Some(Next::new(None, i, j + 1)),
            (Some(x), Some(y)) if x < y => Some(Next::new(Some(x), i + 1, j)),
            (Some(x), Some(y)) if y < x => Some(Next::new(Some(y), i, j + 1)),
            (Some(x), Some(_)) => Some(Next::new(Some(x), i + 1, j + 1)),
        }
    }

    fn left_of(self, x: u32, y: u32) -> usize
        ensures { LeftOf x y self.pivot self.against result }
    {
        ((x == self.pivot) | ((y != self.against) & (x <= y))) as usize
    }

    fn right_of(self, x: u32, y: u32) -> usize
        ensures { RightOf x y self.pivot self.against result }
    {
        ((x != self.pivot) & ((y == self.against) | (y <= x))) as usize
    }

    fn kept_of(self, x: u32, y: u32) -> usize
        ensures { KeptOf x y self.pivot self.against result }
    {
        ((x != self.pivot) & (y != self.against)) as usize
    }

    // No branch, for speed: which of the two literals is smaller cannot be guessed.
    fn advance(self, x: u32, y: u32) -> Pace
        ensures { Moves x y self.pivot self.against result.left result.right result.kept }
    {
        let left = self.left_of(x, y);
        let right = self.right_of(x, y);
        let kept = self.kept_of(x, y);
        Pace { left, right, kept }
    }

    // Whether the resolvent has at most so many literals.
    fn is_at_most(self, literals: &[u32], most: usize) -> bool
        requires left { (self.left.start ≤ self.left.end) × (self.left.end ≤ length literals.now) }
        requires right { (self.right.start ≤ self.right.end) × (self.right.end ≤ length literals.now) }
        ensures { result ≡ nat_le (length (merged self literals.now)) most }
    {
        let mut i = self.left.start;
        let mut j = self.right.start;
        let mut free = most;
        while let Some(next) = self.step(literals, i, j) {
            if next.keep.is_some() {
                if free == 0 {
                    return false;
                }
                free -= 1;
            }
            i = next.i;
            j = next.j;
        }
        true
    }

    // Whether the resolvent fits from a place on. It is counted only where the room is short of both clauses together.
    pub(super) fn fits(self, literals: &[u32], from: usize) -> bool
        requires left { (self.left.start ≤ self.left.end) × (self.left.end ≤ length literals.now) }
        requires right { (self.right.start ≤ self.right.end) × (self.right.end ≤ length literals.now) }
        ensures { result ≡ nat_le (from + length (merged self literals.now)) (length literals.now) }
    {
        let Some(free) = literals.len().checked_sub(from) else {
            return false;
        };
        let left = self.left.end - self.left.start;
        let right = self.right.end - self.right.start;
        if left <= free && right <= free - left {
            return true;
        }
        self.is_at_most(literals, free)
    }

    // Writes the resolvent from a place on, and answers where it ends.
    pub(super) fn write(self, literals: &mut [u32], from: usize) -> usize
        requires left { (self.left.start ≤ self.left.end) × (self.left.end ≤ from) }
        requires right { (self.right.start ≤ self.right.end) × (self.right.end ≤ from) }
        requires room { from + length (merged self literals.old) ≤ length literals.old }
        ensures end { result ≡ from + length (merged self literals.old) }
        ensures after { literals.new ≡ placed from (merged self literals.old) literals.old }
    {
        let mut i = self.left.start;
        let mut j = self.right.start;
        let mut at = from;
        'both: while i < self.left.end && j < self.right.end && at < literals.len() {
            let x = literals[i];
            let y = literals[j];
            let pace = self.advance(x, y);
            literals[at] = chosen(pace.kept, x.min(y), literals[at]);
            at += pace.kept;
            i += pace.left;
            j += pace.right;
        }
        while let Some(next) = self.step(literals, i, j) {
            if let Some(x) = next.keep {
                literals[at] = x;
                at += 1;
            }
            i = next.i;
            j = next.j;
        }
        at
    }
}
