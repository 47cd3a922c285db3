// Frames are written literal by literal, clause by clause and frame by frame.
ghost use Rattle.std.specs.Prelude.{◌≡◌, ◌&&◌, length, nat_lt};
ghost use Rattle.std.specs.Result.{is_ok};
ghost use Rattle.frames.specs.Held.{ended_frames};
ghost use Rattle.frames.specs.Writes.{LiteralPushed, ClauseEnded, FrameEnded, AddsLiteral, AddsClause, AddsFrame};

use crate::frames::{Frames, Mark};
use refusal::Full;
use stack::{MOST_LITERALS, MOST_SPANS, Span};

impl Frames {
    // One literal more in the open clause; `Full`, and unchanged, where there is no room.
    pub fn push(&mut self, literal: u32, literals: &mut [u32]) -> Result<(), Full>
        ensures room { is_ok result ≡ (nat_lt self.old.literals.used (length literals.old) && nat_lt self.old.literals.used 1048576) }
        ensures pushed { LiteralPushed self.old self.new literal literals.old literals.new result }
        ensures adds { AddsLiteral self.old self.new literal literals.old literals.new result }
    {
        if self.literals.used >= MOST_LITERALS {
            return Err(Full);
        }
        self.literals.push(literals, literal)
    }

    // The open clause becomes one of the open frame; `Full`, and unchanged, where there is no room.
    pub fn end_clause(&mut self, spans: &mut [Span]) -> Result<(), Full>
        ensures room { is_ok result ≡ (nat_lt self.old.spans.used (length spans.old) && nat_lt self.old.spans.used 65536) }
        ensures ended { ClauseEnded self.old self.new spans.old spans.new result }
        ensures adds { AddsClause self.old self.new spans.old spans.new result }
    {
        if self.spans.used >= MOST_SPANS {
            return Err(Full);
        }
        let span = Span {
            start: self.ended as u32,
            length: (self.literals.used - self.ended) as u32,
        };
        self.spans.push(spans, span)?;
        self.ended = self.literals.used;
        Ok(())
    }

    // The open frame is ended, and the next one open; `Full`, and unchanged, where 65 are ended.
    pub fn end_frame(&mut self) -> Result<(), Full>
        ensures room { is_ok result ≡ nat_lt (ended_frames self.old) 65 }
        ensures ended { FrameEnded self.old self.new result }
        ensures adds { AddsFrame self.old self.new result }
    {
        if self.count >= 65 {
            return Err(Full);
        }
        self.marks[self.count] = Mark {
            clauses: self.spans.used,
            literals: self.ended,
        };
        self.count += 1;
        Ok(())
    }
}
