// The opening of a certificate: its claim and, of a trace, the frames.
#![tactic(auto)]

ghost use Rattle.std.specs.Prelude.{length};
ghost use Rattle.opening.specs.Steps.{room_in};
ghost use Rattle.opening.specs.Openings.{Reads};

use certificate::Cursor;
use decision::step;
use frames::Frames;
use machine::Machine;
use phase::Phase;
use refusal::{CertificateFault, CertificateRefusal};
use stack::Span;

mod decision;
mod opening;
mod phase;
mod start;

pub use certificate::Claim;
pub use opening::Opening;

// Reads the opening of a certificate; the frames of a trace go onto the stacks over the areas that are lent.
pub fn open<M: Machine>(
    machine: &M,
    cursor: &mut Cursor<'_>,
    literals: &mut [u32],
    spans: &mut [Span],
) -> Result<Opening, CertificateRefusal>
    ensures { Reads (M.meaning machine.now) (room_in (length literals.old) (length spans.old)) cursor.old cursor.new literals.new spans.new result }
{
    let mut frames = Frames::new();
    let mut phase = Phase::Opening;
    let mut records = 0;
    loop {
        if let Phase::Opened { claim, size } = phase {
            return Ok(Opening {
                claim,
                size,
                frames,
                records,
            });
        }
        let offset = cursor.offset();
        let record = cursor
            .next()
            .ok_or(CertificateFault::NoRecord.at(offset, 0))?;
        let stepped = step(machine, phase, record, &mut frames, literals, spans);
        phase = stepped.map_err(|fault| fault.at(offset, 0))?;
        records += 1;
    }
}
