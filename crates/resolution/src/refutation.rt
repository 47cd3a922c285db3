// A refutation under way: a token of numbers, whose clauses stand in two lent areas.
ghost use Rattle.std.specs.Prelude.{◌≡◌, ℕ, ◌+◌, ◌-◌, ◌<◌, ◌≤◌, min, Bool, true, false, cond, ◌&&◌, List, [], ◌∷◌, length, MatchOption, MatchResult, nat_lt};
ghost use Rattle.refusal.specs.declared.faults.RefutationFault.TheVariants.{NotRefuted};
ghost use Rattle.stack.specs.declared.spans.Span.{Span as SpanOf};
ghost use Rattle.stack.specs.Pushes.{placed};
ghost use Rattle.stack.specs.Runs.{part};
ghost use Rattle.resolution.specs.Clauses.{Unsat};
ghost use Rattle.resolution.specs.Lists.{numbered_clause};
ghost use Rattle.resolution.specs.Resolvents.{ResolventsLaw};
ghost use Rattle.resolution.specs.Outcomes.{admitted, granted};
ghost use Rattle.resolution.specs.States.{own, taken, resolved, fresh, closed, ended, Standing, Follows, Steps, Carries};

use super::lists::ClauseList;
use super::merging::Merge;
use refusal::RefutationFault;
use stack::{Bounds, MOST_LITERALS, MOST_SPANS, Span, Stack};

// Its clauses are the spans from `first` up to the top; their literals start at `floor`.
pub struct Refutation {
    floor: usize,
    first: usize,
    literals: Stack,
    spans: Stack,
    spent: bool,
}

// One that is under way cannot lapse: only a granted finish, or giving it up, ends it.
impl Drop for Refutation {
    fn drop(self)
        requires { self.spent ≡ true }
    {
        let Refutation {
            floor: _,
            first: _,
            literals: _,
            spans: _,
            spent: _,
        } = self;
    }
}

// That a refutation was finished. It cannot be dropped, only spent.
pub struct Refuted {
    clauses: usize,
}

impl Refuted {
    // How many clauses the refutation had.
    pub fn spend(self) -> usize
        ensures { result ≡ self.clauses }
    {
        let Refuted { clauses } = self;
        clauses
    }
}

// Whether a refutation may work in areas of these lengths.
#[tactic(auto, unfolding(crate::specs::Outcomes::admitted))]
pub(super) fn fitting(literals: &[u32], spans: &[Span]) -> bool
    ensures { result ≡ admitted (length literals.now) (length spans.now) }
{
    literals.len() <= MOST_LITERALS && spans.len() <= MOST_SPANS
}

impl Refutation {
    // Which literals are the clause of a number, if there is one.
    fn clause(&self, number: usize, literals: &[u32], spans: &[Span]) -> Option<Bounds>
        ensures { MatchOption result (length (own self.now literals.now spans.now) ≤ number) (λ b. (number < length (own self.now literals.now spans.now)) × (b.start ≤ b.end) × (b.end ≤ self.now.literals.used) × (b.end ≤ length literals.now) × (part literals.now b.start b.end ≡ numbered_clause (own self.now literals.now spans.now) number)) }
    {
        let span = self.spans.read(spans, self.first.saturating_add(number))?;
        Some(span.bounds(self.literals.used.min(literals.len())))
    }

    // Whether one more span fits into areas that are admitted.
    fn has_place(&self, literals: &[u32], spans: &[Span]) -> bool
        ensures { result ≡ (admitted (length literals.now) (length spans.now) && nat_lt self.now.spans.used (length spans.now)) }
    {
        fitting(literals, spans) && self.spans.used < spans.len()
    }

    // Makes a clause of the literals from a place up to the top, and answers its number.
    fn note(&mut self, start: usize, spans: &mut [Span]) -> usize
        requires order { start ≤ self.old.literals.used }
        requires small { self.old.literals.used ≤ 1048576 }
        requires free { self.old.spans.used < length spans.old }
        ensures number { result ≡ self.old.spans.used - self.old.first }
        ensures refutation { self.new ≡ record { floor = self.old.floor; first = self.old.first; literals = self.old.literals; spans = record { used = self.old.spans.used + 1 }; spent = self.old.spent } }
        ensures spans { spans.new ≡ placed self.old.spans.used (record { start = start; length = self.old.literals.used - start } ∷ []) spans.old }
    {
        let number = self.spans.used.saturating_sub(self.first);
        let length = self.literals.used - start;
        let _ = self.spans.push(
            spans,
            Span {
                start: start as u32,
                length: length as u32,
            },
        );
        number
    }

    // Takes clause `number` of a list over as one of its own, and answers its number here.
    pub fn take<L: ClauseList>(
        &mut self,
        list: &L,
        number: usize,
        literals: &mut [u32],
        spans: &mut [Span],
    ) -> Result<usize, RefutationFault>
        ensures step { Steps self.old self.new literals.old literals.new spans.old spans.new (taken self.old (L.clauses list.now literals.old spans.old) number literals.old spans.old) result }
        ensures spent { self.new.spent ≡ self.old.spent }
        ensures carries { Standing self.old literals.old spans.old → Carries (L.clauses list.now literals.old spans.old) (own self.old literals.old spans.old) (own self.new literals.new spans.new) }
    {
        if self.spent {
            return Err(RefutationFault::NoClause);
        }
        if number >= list.count(literals, spans) {
            return Err(RefutationFault::NoClause);
        }
        if !self.has_place(literals, spans) {
            return Err(RefutationFault::Full);
        }
        let start = self.literals.used;
        list.copy(number, &mut self.literals, literals, spans)?;
        Ok(self.note(start, spans))
    }

    // Resolves two of its clauses on a literal of the left one, and answers the new clause's number.
    pub fn resolve(
        &mut self,
        left: usize,
        right: usize,
        pivot: u32,
        literals: &mut [u32],
        spans: &mut [Span],
    ) -> Result<usize, RefutationFault>
        ensures step { Steps self.old self.new literals.old literals.new spans.old spans.new (resolved self.old left right pivot literals.old spans.old) result }
        ensures spent { self.new.spent ≡ self.old.spent }
        ensures carries { (list : List (List ℕ)) → Standing self.old literals.old spans.old → Carries list (own self.old literals.old spans.old) (own self.new literals.new spans.new) }
        ensures law { ResolventsLaw }
    {
        let a = self
            .clause(left, literals, spans)
            .ok_or(RefutationFault::NoClause)?;
        let b = self
            .clause(right, literals, spans)
            .ok_or(RefutationFault::NoClause)?;
        let merge = Merge::new(literals, a, b, pivot).ok_or(RefutationFault::NoPivot)?;
        if !self.has_place(literals, spans) {
            return Err(RefutationFault::Full);
        }
        let start = self.literals.used;
        if !merge.fits(literals, start) {
            return Err(RefutationFault::Full);
        }
        self.literals.used = merge.write(literals, start);
        Ok(self.note(start, spans))
    }

    // A refutation whose clauses stand above what these stacks hold now.
    pub fn above(literals: Stack, spans: Stack) -> Refutation
        ensures made { result ≡ fresh literals.used spans.used }
        ensures stands { (ls : List ℕ) (ps : List SpanOf) → literals.used ≤ length ls → spans.used ≤ length ps → admitted (length ls) (length ps) ≡ true → Standing result ls ps × (own result ls ps ≡ []) }
    {
        Refutation {
            floor: literals.used,
            first: spans.used,
            literals,
            spans,
            spent: false,
        }
    }

    // Drops its clauses, and ends it; the areas stay.
    pub fn abandon(&mut self)
        ensures { self.new ≡ closed self.old }
    {
        self.literals.used = self.floor;
        self.spans.used = self.first;
        self.spent = true;
    }

    // Ends it, where it has a clause and the latest is empty; the areas stay.
    pub fn conclude(&mut self, literals: &[u32], spans: &[Span]) -> Result<Refuted, RefutationFault>
        ensures answer { result ≡ ended (own self.old literals.now spans.now) }
        ensures refutation { self.new ≡ granted result (closed self.old) self.old }
        ensures refuted { MatchResult result (λ _. (list : List (List ℕ)) → Follows list (own self.old literals.now spans.now) → Unsat list) (λ e. e ≡ NotRefuted) }
    {
        let made = self.spans.used.min(spans.len()).saturating_sub(self.first);
        let last = made.checked_sub(1).ok_or(RefutationFault::NotRefuted)?;
        let latest = self
            .clause(last, literals, spans)
            .ok_or(RefutationFault::NotRefuted)?;
        if latest.start < latest.end {
            return Err(RefutationFault::NotRefuted);
        }
        self.abandon();
        Ok(Refuted { clauses: made })
    }
}
