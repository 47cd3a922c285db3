// Spans of literals, and the places that they mark out.
ghost use Rattle.std.specs.Prelude.{◌≡◌, ℕ, ◌+◌, ◌-◌, ◌<◌, ◌≤◌, min, List, length, take};
ghost use Rattle.stack.specs.Runs.{part, run};

use areas::Blank;

// The literals of one clause: where they start on a stack of literals, and how many there are.
#[repr(C)]
#[derive(Clone, Copy, Default)]
pub struct Span {
    pub start: u32,
    pub length: u32,
}

impl Blank for Span {
    ghost empty = { record { start = 0; length = 0 } };

    fn blank() -> Span {
        Span {
            start: 0,
            length: 0,
        }
    }
}

// Places in an area: from `start` up to `end`.
#[derive(Clone, Copy, Default)]
pub struct Bounds {
    pub start: usize,
    pub end: usize,
}

impl Span {
    // Which of the first n entries of an area it marks out.
    pub fn bounds(self, n: usize) -> Bounds
        ensures order { (result.start ≤ result.end) × (result.end ≤ n) }
        ensures marks { (area : List ℕ) → n ≤ length area → part area result.start result.end ≡ run (take n area) self }
    {
        let start = (self.start as usize).min(n);
        let length = (self.length as usize).min(n - start);
        Bounds {
            start,
            end: start + length,
        }
    }
}
