// The sections of a circuit's text, each of lines of one kind, and where their numbers are stored.
ghost use Rattle.std.specs.Prelude.{◌≡◌, ◌+◌, ◌*◌, ◌≤◌, ◌++◌, length, take, drop, Err, MatchResult};
ghost use Rattle.aiger.specs.Numbers.{Admitted, needed};
ghost use Rattle.circuit_text.specs.Lines.{listed};
ghost use Rattle.circuit_text.specs.Sections.{lines_of, width, section_on, sections_read, Stores};

use crate::{Kept, LineKind, line};
use aiger::Header;
use refusal::TextRefusal;

// How far a reading has come: in the text, and in the area.
#[derive(Clone, Copy)]
pub(crate) struct Place {
    pub offset: usize,
    pub used: usize,
}

impl LineKind {
    // How many lines of this kind a circuit has.
    fn lines(self, header: &Header) -> u32
        ensures { result ≡ lines_of header.now self }
    {
        match self {
            LineKind::Input => header.inputs,
            LineKind::Latch => header.latches,
            LineKind::Output => header.outputs,
            LineKind::Gate => header.gates,
        }
    }
}

// Stores what is kept of a line, and answers how much of the area is used then.
fn store(area: &mut [u32], used: usize, kept: Kept) -> usize
    requires { used + length (listed kept) ≤ length area.old }
    ensures used { result ≡ used + length (listed kept) }
    ensures stored { take result area.new ≡ take used area.old ++ listed kept }
    ensures rest { drop result area.new ≡ drop result area.old }
{
    match kept {
        Kept::Nothing => used,
        Kept::One(literal) => {
            area[used] = literal;
            used + 1
        }
        Kept::Two(a, b) => {
            area[used] = a;
            area[used + 1] = b;
            used + 2
        }
    }
}

// Reads the lines of a kind from a place on, and stores what is kept of them.
fn section(
    text: &[u8],
    area: &mut [u32],
    header: &Header,
    kind: LineKind,
    from: Place,
) -> Result<Place, TextRefusal>
    requires admitted { Admitted header.now (length area.old) }
    requires room { from.used + width kind * lines_of header.now kind ≤ length area.old }
    ensures read { MatchResult result
        (λ p. Stores (section_on header.now kind text.now (take from.used area.old, from.offset)) area.old area.new p.offset p.used)
        (λ e. section_on header.now kind text.now (take from.used area.old, from.offset) ≡ Err e) }
    ensures used { MatchResult result (λ p. p.used ≡ from.used + width kind * lines_of header.now kind) (λ _. Unit {0}) }
{
    let mut place = from;
    for index in 0..kind.lines(header) {
        let read = line::read_line(text, place.offset, header, kind, index);
        let (kept, next) = read.map_err(|fault| fault.at(place.offset))?;
        let used = store(area, place.used, kept);
        place = Place { offset: next, used };
    }
    Ok(place)
}

// Reads the sections of an admitted circuit, and stores its numbers from the start of the area.
pub(crate) fn sections(
    text: &[u8],
    area: &mut [u32],
    header: &Header,
    start: usize,
) -> Result<Place, TextRefusal>
    requires { Admitted header.now (length area.old) }
    ensures read { MatchResult result
        (λ p. Stores (sections_read header.now text.now start) area.old area.new p.offset p.used)
        (λ e. sections_read header.now text.now start ≡ Err e) }
    ensures used { MatchResult result (λ p. p.used ≡ needed header.now) (λ _. Unit {0}) }
{
    let place = Place {
        offset: start,
        used: 0,
    };
    let place = section(text, area, header, LineKind::Input, place)?;
    let place = section(text, area, header, LineKind::Latch, place)?;
    let place = section(text, area, header, LineKind::Output, place)?;
    section(text, area, header, LineKind::Gate, place)
}
