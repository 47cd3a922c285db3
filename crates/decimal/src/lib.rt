// Numbers in decimal, as a text has them.
#![tactic(auto)]

ghost use Rattle.std.specs.Prelude.{◌≡◌, ℕ, ◌≤◌, length, drop, Some};
ghost use Rattle.decimal.specs.Number.{leading, fitting, plain, number_of, Number};

#[cfg(test)]
mod tests;

// The value and the count of the digits that the text begins with, where the value fits.
fn digits(text: &[u8]) -> Option<(u32, usize)>
    ensures { result ≡ fitting (leading text.now) }
{
    let mut value: u32 = 0;
    let mut size = 0;
    for byte in text {
        if !byte.is_ascii_digit() {
            break;
        }
        value = value.checked_mul(10)?.checked_add(u32::from(byte - b'0'))?;
        size += 1;
    }
    Some((value, size))
}

// No zero stands in front of other digits.
fn is_plain(first: u8, size: usize) -> bool
    ensures { result ≡ plain first size }
{
    size == 1 || size > 1 && first != b'0'
}

// The number that starts at byte `at`, and how many bytes it takes.
pub fn number(text: &[u8], at: usize) -> Option<(u32, usize)>
    ensures value { result ≡ number_of (drop at text.now) }
    ensures written { (n k : ℕ) → result ≡ Some (n, k) → Number (drop at text.now) n k }
    ensures reads { (n k : ℕ) → Number (drop at text.now) n k → result ≡ Some (n, k) }
{
    let rest = text.get(at..)?;
    let first = *rest.first()?;
    let (value, size) = digits(rest)?;
    is_plain(first, size).then_some((value, size))
}
