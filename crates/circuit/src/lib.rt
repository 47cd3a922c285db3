// Circuits of gates as rule machines: the numbers that a circuit is set to, and what it means.
#![tactic(auto)]

ghost use Rattle.std.specs.Prelude.{◌≡◌, take, MatchResult};
ghost use Rattle.aiger.specs.Numbers.{Good, needed};
ghost use Rattle.circuit.specs.Admission.{judged, smallest_header, smallest_area};
ghost use Rattle.aiger.specs.Evaluation.{meant};
ghost use Rattle.aiger.proofs.Law.{circuit_lawful};

use admission::judge;
use aiger::Header;
use gates::{gate_clause, gate_literal, operands, value};
use machine::{Clause, Machine, can_fill};
use refusal::{DocketFault, TextRefusal};

mod admission;
mod circuit;
mod gates;
#[cfg(test)]
mod tests;

pub use circuit::Circuit;

static SMALLEST: [u32; 1] = [0];

// The smallest circuit, for a caller to hold before it sets its own.
pub fn smallest<'a>() -> Circuit<'a>
    ensures { (result.header ≡ smallest_header) × (result.area.now ≡ smallest_area) }
{
    let header = Header {
        maximum: 0,
        inputs: 0,
        latches: 0,
        outputs: 1,
        gates: 0,
    };
    Circuit {
        header,
        area: &SMALLEST,
    }
}

impl<'a> Circuit<'a> {
    // Sets the circuit to a header and an area, of which the rest is not looked at; refused, it is as it was.
    pub fn set(&mut self, header: Header, area: &'a [u32]) -> Result<(), TextRefusal>
        ensures answer { result ≡ judged header area.now }
        ensures circuit { MatchResult result
            (λ _. Good header area.now × (self.new.header ≡ header) × (self.new.area.now ≡ take (needed header) area.now))
            (λ _. (Good header area.now → ⊥) × (self.new ≡ self.old)) }
    {
        judge(header, area)?;
        *self = Circuit {
            header,
            area: &area[..header.needed()],
        };
        Ok(())
    }
}

impl<'a> Machine for Circuit<'a> {
    ghost meaning = { λ c. meant c.header c.area.now };

    ghost lawful = { λ c. circuit_lawful c.header c.area.now c.good c.whole };

    fn inputs(&self) -> usize {
        self.header.inputs as usize
    }

    fn state_bits(&self) -> usize {
        self.header.latches as usize
    }

    fn rules(&self) -> usize {
        self.header.outputs as usize
    }

    fn variables(&self) -> usize {
        self.header.maximum as usize + 1
    }

    fn clauses(&self) -> usize {
        1 + 3 * self.header.gates as usize
    }

    fn start_bit(&self, bit: usize) -> Option<bool> {
        (bit < self.state_bits()).then_some(false)
    }

    fn next_literal(&self, bit: usize) -> Option<u32> {
        self.area[..self.state_bits()].get(bit).copied()
    }

    fn rule_literal(&self, rule: usize) -> Option<u32> {
        self.area[self.state_bits()..self.header.heads()]
            .get(rule)
            .copied()
    }

    fn clause(&self, number: usize) -> Option<Clause> {
        if number == 0 {
            return Some(Clause::of(&[1]));
        }
        let gate = (number - 1) / 3;
        if gate >= self.header.gates as usize {
            return None;
        }
        let literal = gate_literal(self.header, gate);
        let (a, b) = operands(self.header, self.area, gate);
        Some(gate_clause(literal, a, b, (number - 1) % 3))
    }

    fn fill(&self, row: &mut [u8]) -> Result<(), DocketFault> {
        let given = self.header.given();
        if !can_fill(row, given, self.variables()) {
            return Err(DocketFault::UnfitArea);
        }
        row[0] = 0;
        let area = self.area;
        let first = self.header.heads();
        // A gate reads what the gates before it wrote, so the row is filled place by place.
        for gate in 0..self.header.gates as usize {
            let at = first + 2 * gate;
            row[1 + given + gate] = value(row, area[at]) & value(row, area[at + 1]);
        }
        Ok(())
    }
}
