// One line of a circuit's text, and the questions put to it.
ghost use Rattle.std.specs.Prelude.{◌≡◌, ◌+◌, ◌^◌, ◌<◌, ◌≤◌, if◌then◌else◌, Ok, Err};
ghost use Rattle.std.specs.Result.{result_map_both};
ghost use Rattle.circuit_text.specs.Lines.{listed, form_at, questioned, line_at};

use crate::fields;
use aiger::Header;
use refusal::TextFault;

#[derive(Clone, Copy)]
pub(crate) enum LineKind {
    Input,
    Latch,
    Output,
    Gate,
}

// The numbers of a line in form.
#[derive(Clone, Copy)]
pub(crate) enum Line {
    Input(u32),
    Latch(u32, u32),
    Output(u32),
    Gate(u32, u32, u32),
}

// The numbers that the area keeps of a line.
#[derive(Clone, Copy)]
pub(crate) enum Kept {
    Nothing,
    One(u32),
    Two(u32, u32),
}

// The numbers of a line of a kind, and where the next line begins.
fn in_form(text: &[u8], at: usize, kind: LineKind) -> Option<(Line, usize)>
    ensures { result ≡ form_at kind text.now at }
{
    let (first, end) = fields::number(text, at)?;
    match kind {
        LineKind::Input => Some((Line::Input(first), fields::after_line(text, end)?)),
        LineKind::Latch => {
            let (next, end) = fields::spaced(text, end)?;
            Some((Line::Latch(first, next), fields::after_line(text, end)?))
        }
        LineKind::Output => Some((Line::Output(first), fields::after_line(text, end)?)),
        LineKind::Gate => {
            let (a, end) = fields::spaced(text, end)?;
            let (b, end) = fields::spaced(text, end)?;
            Some((Line::Gate(first, a, b), fields::after_line(text, end)?))
        }
    }
}

// Goes on where the answer to a question is yes.
fn ask(answer: bool, fault: TextFault) -> Result<(), TextFault>
    ensures { result ≡ (if answer then Ok tt else Err fault) }
{
    answer.then_some(()).ok_or(fault)
}

impl Line {
    // The questions on the numbers of line `index`, counted from 0 among those of its kind.
    fn question(self, header: &Header, index: u32) -> Result<Kept, TextFault>
        requires { (header.now.maximum ≤ 16383) × (header.now.inputs + header.now.latches + index < 2 ^ 20) }
        ensures { result_map_both listed (λ fault. fault) result ≡ questioned header.now index self }
    {
        let greatest = 2 * header.maximum + 1;
        match self {
            Line::Input(literal) => {
                ask(literal == 2 * (1 + index), TextFault::FirstNumber)?;
                Ok(Kept::Nothing)
            }
            Line::Latch(literal, next) => {
                let own = 2 * (1 + header.inputs + index);
                ask(literal == own, TextFault::FirstNumber)?;
                ask(next <= greatest, TextFault::Literal)?;
                Ok(Kept::One(next))
            }
            Line::Output(literal) => {
                ask(literal <= greatest, TextFault::Literal)?;
                Ok(Kept::One(literal))
            }
            Line::Gate(gate, a, b) => {
                let own = 2 * (1 + header.inputs + header.latches + index);
                ask(gate == own, TextFault::FirstNumber)?;
                ask(a < gate, TextFault::Literal)?;
                ask(b <= a, TextFault::Literal)?;
                Ok(Kept::Two(a, b))
            }
        }
    }
}

// Reads line `index` of a kind at `at`: what the area keeps of it, and where the next line begins.
#[tactic(auto, unfolding(crate::specs::Lines::line_at))]
pub(crate) fn read_line(
    text: &[u8],
    at: usize,
    header: &Header,
    kind: LineKind,
    index: u32,
) -> Result<(Kept, usize), TextFault>
    requires { (header.now.maximum ≤ 16383) × (header.now.inputs + header.now.latches + index < 2 ^ 20) }
    ensures { result_map_both (λ p. (listed p.0, p.1)) (λ fault. fault) result ≡ line_at header.now kind index text.now at }
{
    let (line, next) = in_form(text, at, kind).ok_or(TextFault::Form)?;
    Ok((line.question(header, index)?, next))
}
