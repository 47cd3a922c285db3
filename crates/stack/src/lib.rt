// Stacks of entries in lent slices, and the spans that mark out clauses on a stack of literals.
#![tactic(auto)]

ghost use Rattle.std.specs.Prelude.{◌≡◌, ℕ, ◌+◌, ◌-◌, ◌<◌, ◌≤◌, min, List, [], ◌∷◌, length, MatchOption, OnOk, slice_index_or, slice_range};
ghost use Rattle.stack.specs.Pushes.{PushedAs};

use refusal::Full;

mod spans;

pub use spans::{Bounds, Span};

// The most literals, and the most spans, that work areas may have room for.
pub const MOST_LITERALS: usize = 1_048_576;

pub const MOST_SPANS: usize = 65_536;

// A stack of entries of any kind: the first `used` of a slice that is lent to each call.
#[derive(Clone, Copy, Default)]
pub struct Stack {
    pub used: usize,
}

impl Stack {
    // Puts an entry on top, if one is free.
    pub fn push<T: Copy>(&mut self, area: &mut [T], entry: T) -> Result<(), Full>
        ensures { PushedAs (entry ∷ []) self.old.used self.new.used area.old area.new result }
    {
        if self.used >= area.len() {
            return Err(Full);
        }
        area[self.used] = entry;
        self.used += 1;
        Ok(())
    }

    // Puts several entries on top, if enough are free.
    pub fn push_all<T: Copy>(&mut self, area: &mut [T], entries: &[T]) -> Result<(), Full>
        ensures { PushedAs entries.now self.old.used self.new.used area.old area.new result }
    {
        if self.used > area.len() || entries.len() > area.len() - self.used {
            return Err(Full);
        }
        let end = self.used + entries.len();
        area[self.used..end].copy_from_slice(entries);
        self.used = end;
        Ok(())
    }

    // Puts entries of the same area on top once more, if enough are free.
    pub fn push_again<T: Copy>(&mut self, area: &mut [T], entries: Bounds) -> Result<(), Full>
        ensures { PushedAs (slice_range area.old entries.start entries.end) self.old.used self.new.used area.old area.new result }
    {
        let end = entries.end.min(area.len());
        let start = entries.start.min(end);
        if self.used > area.len() || end - start > area.len() - self.used {
            return Err(Full);
        }
        area.copy_within(start..end, self.used);
        self.used += end - start;
        Ok(())
    }

    // The entry at a place, if the stack has it.
    pub fn read<T: Copy>(&self, area: &[T], place: usize) -> Option<T>
        ensures { MatchOption result (min self.now.used (length area.now) ≤ place) (λ x. (place < min self.now.used (length area.now)) × (x ≡ slice_index_or area.now place x)) }
    {
        if place >= self.used {
            return None;
        }
        area.get(place).copied()
    }

    // Drops the entries from a mark on.
    pub fn truncate(&mut self, mark: usize)
        ensures { self.new.used ≡ min mark self.old.used }
    {
        self.used = self.used.min(mark);
    }
}
