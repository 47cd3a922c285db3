// The bits of numbers, and the literals that say what they are.
ghost use Rattle.std.specs.Prelude.{◌≡◌, ◌^◌, ◌<◌};
ghost use Rattle.table_format.specs.Stepping.{binary_digit, valued};

// Bit `bit` of a number.
pub(crate) fn bit_of(number: u32, bit: usize) -> bool
    requires { bit < 32 }
    ensures { result ≡ binary_digit number bit }
{
    number >> bit & 1 == 1
}

// The literal that is true where a variable is this bit of a number.
pub(crate) fn literal(variable: usize, number: u32, bit: usize) -> u32
    requires { (variable < 2 ^ 16) × (bit < 32) }
    ensures { result ≡ valued variable (binary_digit number bit) }
{
    let positive = 2 * variable as u32;
    if bit_of(number, bit) {
        positive
    } else {
        positive + 1
    }
}
