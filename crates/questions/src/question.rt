// The questions of a trace by their numbers.
ghost use Rattle.std.specs.Prelude.{◌≡◌, ℕ, suc, ◌<◌, ◌≤◌, MatchOption};
ghost use Rattle.frames.specs.Held.{before_frame};
ghost use Rattle.questions.specs.Closing.{last_frame};
ghost use Rattle.questions.specs.Laws.{Counted, Found};
ghost use Rattle.questions.specs.Numbers.{steps_of, questions_of, AfterFrame, QuestionAt};

use super::framed::frame_end;
use frames::Frames;

// A question of a trace.
#[derive(Clone, Copy)]
pub enum TraceQuestion {
    // whether a step from a frame denies a clause of the next one
    Step { frame: usize, clause: usize },
    // whether a state of a frame breaks the rule
    Safe { frame: usize },
    // whether a state of the last frame is in none before it
    Closing,
}

// The number of the last frame.
pub(crate) fn last_frame(frames: &Frames) -> usize
    ensures { result ≡ last_frame frames.now }
{
    frames.count().saturating_sub(1)
}

// How many step questions there are: one for each clause after the first frame.
fn count_steps(frames: &Frames) -> usize
    ensures { result ≡ steps_of frames.now }
{
    frame_end(frames, last_frame(frames)).saturating_sub(frame_end(frames, 0))
}

// The frame before the one that a clause stands in, where the clauses are counted through.
fn frame_before(frames: &Frames, clause: usize) -> Option<usize>
    ensures { MatchOption result ((j : ℕ) → j < last_frame frames.now → (before_frame frames.now (suc (suc j))).clauses ≤ clause) (λ i. AfterFrame frames.now clause i) }
{
    (0..last_frame(frames)).find(|frame| clause < frame_end(frames, frame + 1))
}

// How many questions a trace has.
pub fn trace_questions(frames: &Frames) -> usize
    ensures count { result ≡ questions_of frames.now }
    ensures trace { Counted frames.now result }
{
    count_steps(frames) + last_frame(frames) + 2
}

// A question of a trace, if there are so many.
pub fn trace_question(frames: &Frames, number: usize) -> Option<TraceQuestion>
    ensures place { QuestionAt frames.now number result }
    ensures trace { Found frames.now number result }
{
    let last = last_frame(frames);
    match number.checked_sub(count_steps(frames)) {
        None => step_question(frames, number),
        Some(frame) if frame <= last => Some(TraceQuestion::Safe { frame }),
        Some(after) if after == last + 1 => Some(TraceQuestion::Closing),
        Some(_) => None,
    }
}

// A step question, by the number of its clause among those after the first frame.
fn step_question(frames: &Frames, number: usize) -> Option<TraceQuestion>
    requires { number < steps_of frames.now }
    ensures { QuestionAt frames.now number result }
{
    let place = frame_end(frames, 0) + number;
    let frame = frame_before(frames, place)?;
    let clause = place.saturating_sub(frame_end(frames, frame));
    Some(TraceQuestion::Step { frame, clause })
}
