// What a record of an opening does: the next phase, or the fault of the first question that is answered no.
ghost use Rattle.std.specs.Prelude.{◌≡◌, ℕ, ◌||◌, List, length, nat_lt};
ghost use Rattle.resolution.specs.Clauses.{holds};
ghost use Rattle.question_theory.specs.Traces.{state_setting};
ghost use Rattle.machine.specs.Meaning.{Meaning};
ghost use Rattle.stack.specs.declared.spans.Span.{Span as Entry};
ghost use Rattle.frames.specs.Held.{ended_frames, open_clause};
ghost use Rattle.certificate.specs.declared.record.Record.TheVariants.{Literal, ClauseEnd, FrameEnd};
ghost use Rattle.opening.specs.declared.phase.Phase.TheVariants.{Framing};
ghost use Rattle.opening.specs.Steps.{is_next_literal};
ghost use Rattle.opening.specs.Views.{framing_on, Claimed, Does};

use crate::phase::Phase;
use crate::start;
use certificate::{Claim, Record};
use frames::Frames;
use machine::Machine;
use refusal::CertificateFault;
use resolution::is_above;
use stack::Span;

// The claim: a trace or an induction of 1 to 64, a counterexample of 1 to 4,096 rows.
fn claimed(claim: u8, size: u32) -> Result<Phase, CertificateFault>
    ensures { Claimed claim size result }
{
    let claim = Claim::try_from(claim)?;
    if size < 1 || size > claim.most() {
        return Err(CertificateFault::WrongNumber);
    }
    match claim {
        Claim::Trace => Ok(Phase::Framing { size }),
        Claim::Induction | Claim::Counterexample => Ok(Phase::Opened { claim, size }),
    }
}

// Whether a literal is one of a state bit, and above the last one of the clause.
fn is_next<M: Machine>(machine: &M, clause: &[u32], literal: u32) -> bool
    ensures { result ≡ is_next_literal (M.meaning machine.now) clause.now literal }
{
    let first = 1 + machine.inputs();
    let end = first + machine.state_bits();
    (first..end).contains(&((literal / 2) as usize)) && is_above(clause, literal)
}

// One literal more in the open clause.
fn add_literal<M: Machine>(
    machine: &M,
    literal: u32,
    frames: &mut Frames,
    literals: &mut [u32],
) -> Result<(), CertificateFault>
    ensures { (size : ℕ) (ps : List Entry) → Does (M.meaning machine.now) (Framing size) (Literal literal) frames.old literals.old ps (framing_on size result) frames.new literals.new ps }
{
    if !is_next(machine, frames.open(literals), literal) {
        return Err(CertificateFault::WrongNumber);
    }
    frames.push(literal, literals)?;
    Ok(())
}

// Whether a clause may stand in the open frame: in the first one it must hold in the start.
fn may_stand<M: Machine>(machine: &M, frames: &Frames, clause: &[u32]) -> bool
    ensures { result ≡ (nat_lt 0 (ended_frames frames.now) || holds (state_setting (M.meaning machine.now) (M.meaning machine.now).start) clause.now) }
{
    frames.count() > 0 || start::holds(machine, clause)
}

// The end of the open clause.
fn end_clause<M: Machine>(
    machine: &M,
    frames: &mut Frames,
    literals: &[u32],
    spans: &mut [Span],
) -> Result<(), CertificateFault>
    ensures { (size : ℕ) → Does (M.meaning machine.now) (Framing size) ClauseEnd frames.old literals.now spans.old (framing_on size result) frames.new literals.now spans.new }
{
    let stands = may_stand(machine, frames, frames.open(literals));
    frames.end_clause(spans)?;
    if !stands {
        return Err(CertificateFault::NotAtStart);
    }
    Ok(())
}

// The end of the open frame, where no clause is open; after the last one the opening is over.
fn end_frame(size: u32, frames: &mut Frames) -> Result<Phase, CertificateFault>
    ensures { (m : Meaning) (ls : List ℕ) (ps : List Entry) → length (open_clause frames.old ls) ≡ 0 → Does m (Framing size) FrameEnd frames.old ls ps result frames.new ls ps }
{
    let last = frames.count() >= size as usize;
    // never refuses: at most 64 frames are ended here, and 65 fit
    frames.end_frame()?;
    if last {
        return Ok(Phase::Opened {
            claim: Claim::Trace,
            size,
        });
    }
    Ok(Phase::Framing { size })
}

// One record.
pub(crate) fn step<M: Machine>(
    machine: &M,
    phase: Phase,
    record: Record,
    frames: &mut Frames,
    literals: &mut [u32],
    spans: &mut [Span],
) -> Result<Phase, CertificateFault>
    ensures { Does (M.meaning machine.now) phase «record» frames.old literals.old spans.old result frames.new literals.new spans.new }
{
    let open = frames.open(literals).len();
    match (record, phase) {
        (Record::Claim { claim, size }, Phase::Opening) => claimed(claim, size),
        (Record::Literal(literal), Phase::Framing { size }) => {
            add_literal(machine, literal, frames, literals)?;
            Ok(Phase::Framing { size })
        }
        (Record::ClauseEnd, Phase::Framing { size }) => {
            end_clause(machine, frames, literals, spans)?;
            Ok(Phase::Framing { size })
        }
        (Record::FrameEnd, Phase::Framing { size }) if open == 0 => end_frame(size, frames),
        _ => Err(CertificateFault::OutOfPlace),
    }
}
