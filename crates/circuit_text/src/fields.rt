// Numbers, spaces and line endings at a byte of a text.
ghost use Rattle.std.specs.Prelude.{◌≡◌};
ghost use Rattle.circuit_text.specs.Fields.{end_of_byte, end_of_line, number_at, spaced_at};

// The place after `byte`, if that stands at `at`.
#[tactic(auto, unfolding(crate::specs::Fields::end_of_byte))]
fn after_byte(text: &[u8], at: usize, byte: u8) -> Option<usize>
    ensures { result ≡ end_of_byte byte text.now at }
{
    (*text.get(at)? == byte).then_some(at + 1)
}

// The place after the end of a line.
pub(crate) fn after_line(text: &[u8], at: usize) -> Option<usize>
    ensures { result ≡ end_of_line text.now at }
{
    after_byte(text, at, b'\n')
}

// A number of at most seven digits, and the place after it.
#[tactic(auto, unfolding(crate::specs::Fields::number_at))]
pub(crate) fn number(text: &[u8], at: usize) -> Option<(u32, usize)>
    ensures { result ≡ number_at text.now at }
{
    let (value, size) = decimal::number(text, at)?;
    (value < 10_000_000).then_some((value, at + size))
}

// One space, then a number.
#[tactic(auto, unfolding(crate::specs::Fields::spaced_at))]
pub(crate) fn spaced(text: &[u8], at: usize) -> Option<(u32, usize)>
    ensures { result ≡ spaced_at text.now at }
{
    let after = after_byte(text, at, b' ')?;
    number(text, after)
}
