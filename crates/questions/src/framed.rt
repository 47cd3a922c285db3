// The clauses of frames on the stacks, by their numbers.
ghost use Rattle.std.specs.Prelude.{◌≡◌, ℕ, suc, ◌<◌, ◌≤◌, min, List, [], length, MatchOption, slice_index_or};
ghost use Rattle.stack.specs.Runs.{part};
ghost use Rattle.resolution.specs.Lists.{CopiedAs};
ghost use Rattle.frames.specs.Held.{clauses_of, before_frame, frame as clauses_in};
ghost use Rattle.questions.specs.Lists.{next_clause};

use frames::Frames;
use refusal::RefutationFault;
use stack::{Bounds, Span, Stack};

// Which literals are a clause, counted through all frames, if it is ended.
pub(crate) fn find_clause(
    frames: &Frames,
    number: usize,
    literals: &[u32],
    spans: &[Span],
) -> Option<Bounds>
    ensures { MatchOption result (length (clauses_of frames.now literals.now spans.now) ≤ number) (λ b. (number < length (clauses_of frames.now literals.now spans.now)) × (b.start ≤ b.end) × (b.end ≤ min frames.now.ended (length literals.now)) × (part literals.now b.start b.end ≡ slice_index_or (clauses_of frames.now literals.now spans.now) number [])) }
{
    let span = frames.spans().read(spans, number)?;
    Some(span.bounds(frames.ended().min(literals.len())))
}

// How many clauses stand before the end of a frame.
pub(crate) fn frame_end(frames: &Frames, index: usize) -> usize
    ensures end { result ≡ (before_frame frames.now (suc index)).clauses }
    ensures few { result ≤ 65536 }
{
    frames.before(index.saturating_add(1)).clauses
}

// How many clauses a frame has.
pub(crate) fn count_framed(frames: &Frames, index: usize, spans: &[Span]) -> usize
    ensures size { (ls : List ℕ) → result ≡ length (clauses_in frames.now ls spans.now index) }
    ensures few { result ≤ 65536 }
{
    let ended = frames.spans().used.min(spans.len());
    let end = frame_end(frames, index).min(ended);
    end.saturating_sub(frames.before(index).clauses)
}

// Which literals are a clause of the frame after one; none where there is no such clause.
pub(crate) fn find_next(
    frames: &Frames,
    index: usize,
    clause: usize,
    literals: &[u32],
    spans: &[Span],
) -> Bounds
    ensures order { (result.start ≤ result.end) × (result.end ≤ length literals.now) × (result.end ≤ 1048576) }
    ensures marks { part literals.now result.start result.end ≡ next_clause frames.now literals.now spans.now index clause }
{
    let place = frame_end(frames, index).saturating_add(clause);
    find_clause(frames, place, literals, spans).unwrap_or_default()
}

// Copies a clause of a frame.
pub(crate) fn copy_framed(
    frames: &Frames,
    index: usize,
    number: usize,
    stack: &mut Stack,
    literals: &mut [u32],
    spans: &[Span],
) -> Result<(), RefutationFault>
    ensures { CopiedAs (clauses_in frames.now literals.old spans.now index) number stack.old.used stack.new.used literals.old literals.new result }
{
    if number >= count_framed(frames, index, spans) {
        return Err(RefutationFault::NoClause);
    }
    let first = frames.before(index).clauses;
    let clause = find_clause(frames, first + number, literals, spans).ok_or(
        RefutationFault::NoClause,
    )?;
    stack.push_again(literals, clause)?;
    Ok(())
}
