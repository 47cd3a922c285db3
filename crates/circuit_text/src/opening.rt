// The first line of a circuit's text, and the questions on its numbers.
ghost use Rattle.std.specs.Prelude.{◌≡◌, IfOk};
ghost use Rattle.aiger.specs.Numbers.{Admitted};
ghost use Rattle.circuit_text.specs.Texts.{numbers_at, header_at, opening_of};

use crate::fields;
use aiger::Header;
use refusal::{TextFault, TextRefusal};

// The numbers after the mark of the first line, and where the second line begins.
fn header_numbers(text: &[u8]) -> Option<(Header, usize)>
    ensures { result ≡ numbers_at text.now }
{
    let (maximum, end) = fields::spaced(text, 3)?;
    let (inputs, end) = fields::spaced(text, end)?;
    let (latches, end) = fields::spaced(text, end)?;
    let (outputs, end) = fields::spaced(text, end)?;
    let (gates, end) = fields::spaced(text, end)?;
    let start = fields::after_line(text, end)?;
    Some((
        Header {
            maximum,
            inputs,
            latches,
            outputs,
            gates,
        },
        start,
    ))
}

// The numbers of the first line, and where the second begins.
fn header_line(text: &[u8]) -> Option<(Header, usize)>
    ensures { result ≡ header_at text.now }
{
    let [b'a', b'a', b'g', ..] = text else {
        return None;
    };
    header_numbers(text)
}

// The header of a circuit that an area of `size` numbers can hold, and where the second line begins.
pub(crate) fn opening(text: &[u8], size: usize) -> Result<(Header, usize), TextRefusal>
    ensures value { result ≡ opening_of text.now size }
    ensures admitted { IfOk result (λ p. Admitted p.0 size) }
{
    let (header, start) = header_line(text).ok_or(TextFault::Header.at(0))?;
    header.admit(size).map_err(|fault| fault.at(0))?;
    Ok((header, start))
}
