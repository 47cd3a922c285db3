// Reads a circuit from AIGER text into an area of numbers that a caller lends.
#![tactic(auto)]

ghost use Rattle.std.specs.Prelude.{◌≡◌, ℕ, List, length, IfOk, Ok, Err, MatchResult};
ghost use Rattle.aiger.specs.Numbers.{Good};
ghost use Rattle.circuit_text.specs.Texts.{circuit_of, answer_of, area_of, Fills};
ghost use Rattle.circuit_text.specs.Printed.{Prints};

use aiger::Header;
use refusal::TextRefusal;

mod fields;
mod line;
mod opening;
mod section;
#[cfg(test)]
mod tests;

pub(crate) use line::{Kept, LineKind};

// Reads the circuit into a cleared area; after a refusal the area may hold a part of it.
fn fill(text: &[u8], area: &mut [u32]) -> Result<Header, TextRefusal>
    ensures { MatchResult result
        (λ h. Fills (circuit_of text.now (length area.old)) h area.old area.new)
        (λ e. circuit_of text.now (length area.old) ≡ Err e) }
{
    let (header, start) = opening::opening(text, area.len())?;
    section::sections(text, area, &header, start)?;
    Ok(header)
}

// Reads the circuit that the text begins with: its header is answered, its numbers fill the area.
pub fn read(text: &[u8], area: &mut [u32]) -> Result<Header, TextRefusal>
    ensures value { result ≡ answer_of (circuit_of text.now (length area.old)) }
    ensures area { area.new ≡ area_of (length area.old) (circuit_of text.now (length area.old)) }
    ensures good { IfOk result (λ h. Good h area.new) }
    ensures written { (h : Header) → result ≡ Ok h → Prints text.now h area.new }
    ensures reads { (h : Header) (held : List ℕ) → length held ≡ length area.old → Prints text.now h held
        → (result ≡ Ok h) × (area.new ≡ held) }
{
    areas::clear(area);
    let answer = fill(text, area);
    if answer.is_err() {
        areas::clear(area);
    }
    answer
}
