// Frames of clauses on two stacks over lent areas.
#![tactic(auto)]

ghost use Rattle.std.specs.Prelude.{◌≡◌};
ghost use Rattle.frames.specs.Held.{ended_frames, before_frame, open_clause};
ghost use Rattle.frames.specs.Writes.{Empty};

use stack::Stack;

mod frames;
mod pushes;

pub use frames::{Frames, Mark};

impl Frames {
    // No frame, on empty stacks.
    pub fn new() -> Frames
        ensures { Empty result }
    {
        Frames {
            marks: [Mark::default(); 65],
            count: 0,
            ended: 0,
            literals: Stack::default(),
            spans: Stack::default(),
        }
    }

    // The literals of the open clause.
    pub fn open<'a>(&self, literals: &'a [u32]) -> &'a [u32]
        ensures { result.now ≡ open_clause self.now literals.now }
    {
        let end = self.literals.used.min(literals.len());
        let start = self.ended.min(end);
        &literals[start..end]
    }

    // How many frames are ended.
    pub fn count(&self) -> usize
        ensures { result ≡ ended_frames self.now }
    {
        self.count
    }

    // How many clauses and literals stand before a frame.
    pub fn before(&self, frame: usize) -> Mark
        ensures { result ≡ before_frame self.now frame }
    {
        frame
            .checked_sub(1)
            .and_then(|last| self.marks[..self.count].get(last))
            .copied()
            .unwrap_or_default()
    }

    // How many literals the ended clauses have.
    pub fn ended(&self) -> usize
        ensures { result ≡ self.now.ended }
    {
        self.ended
    }

    // The stack of literals, the open clause's too.
    pub fn literals(&self) -> Stack
        ensures { result ≡ self.now.literals }
    {
        self.literals
    }

    // The stack of spans, one for each ended clause.
    pub fn spans(&self) -> Stack
        ensures { result ≡ self.now.spans }
    {
        self.spans
    }
}
