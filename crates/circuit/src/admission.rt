// The questions on the numbers of a circuit.
ghost use Rattle.std.specs.Prelude.{◌≡◌, ◌<◌, length};
ghost use Rattle.aiger.specs.Numbers.{Admitted};
ghost use Rattle.circuit.specs.Admission.{judged, gate_fits, heads_are_fit, gates_are_fit};

use crate::gates::{gate_literal, operands};
use aiger::Header;
use refusal::{TextFault, TextRefusal};

// A header within bounds, and an area with a place for each number.
#[derive(Clone, Copy)]
struct Numbers<'a> {
    header: Header,
    area: &'a [u32],
    ghost admitted: { Admitted header (length area.now) },
}

impl<'a> Numbers<'a> {
    // Whether next literals and outputs are literals of the circuit.
    fn heads_fit(&self) -> bool
        ensures { result ≡ heads_are_fit self.now.header self.now.area.now }
    {
        self.area[..self.header.heads()]
            .iter()
            .all(|literal| *literal <= 2 * self.header.maximum + 1)
    }

    // Whether the operands of a gate come before it, the greater first.
    fn gate_fits(&self, gate: usize) -> bool
        requires { gate < self.now.header.gates }
        ensures { result ≡ gate_fits self.now.header self.now.area.now gate }
    {
        let (a, b) = operands(self.header, self.area, gate);
        a < gate_literal(self.header, gate) && b <= a
    }

    // Whether the operands of each gate do.
    fn gates_fit(&self) -> bool
        ensures { result ≡ gates_are_fit self.now.header self.now.area.now }
    {
        (0..self.header.gates as usize).all(|gate| self.gate_fits(gate))
    }
}

// Puts the questions on the numbers of a circuit, in order.
pub(crate) fn judge(header: Header, area: &[u32]) -> Result<(), TextRefusal>
    ensures { result ≡ judged header area.now }
{
    header.admit(area.len()).map_err(|fault| fault.at(0))?;
    let numbers = Numbers { header, area };
    if numbers.heads_fit() && numbers.gates_fit() {
        Ok(())
    } else {
        Err(TextFault::Literal.at(0))
    }
}
