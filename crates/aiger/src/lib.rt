// The numbers of a circuit, and the questions put to them by every reader.
#![tactic(auto)]

ghost use Rattle.std.specs.Prelude.{◌≡◌, ◌+◌};
ghost use Rattle.aiger.specs.Numbers.{admitted, needed};

use refusal::TextFault;

mod header;

pub use header::Header;

impl Header {
    // How many inputs and latches there are; their variables come before those of the gates.
    pub fn given(&self) -> usize
        ensures { result ≡ self.now.inputs + self.now.latches }
    {
        self.inputs as usize + self.latches as usize
    }

    // How many next literals and outputs there are; in the area they come before the operands.
    pub fn heads(&self) -> usize
        ensures { result ≡ self.now.latches + self.now.outputs }
    {
        self.latches as usize + self.outputs as usize
    }

    // How many numbers the circuit has in its area.
    pub fn needed(&self) -> usize
        ensures { result ≡ needed self.now }
    {
        self.heads() + 2 * self.gates as usize
    }

    // Puts the questions on the header's numbers and on the length of the circuit area, in order.
    pub fn admit(&self, area: usize) -> Result<(), TextFault>
        ensures { result ≡ admitted self.now area }
    {
        if self.maximum as usize != self.given() + self.gates as usize {
            return Err(TextFault::Sum);
        }
        if self.maximum > 16383 || !(1..=32).contains(&self.outputs) {
            return Err(TextFault::Bounds);
        }
        if area < self.needed() {
            return Err(TextFault::ShortArea);
        }
        Ok(())
    }
}
