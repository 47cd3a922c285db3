// Texts cut at a byte.
ghost use Rattle.std.specs.Prelude.{◌≡◌};
ghost use Rattle.calls.specs.Cuts.{before, after};

// What stands before the first separator, and what after it.
pub(crate) fn cut(text: &[u8], separator: u8) -> (&[u8], &[u8])
    ensures front { result.0.now ≡ before separator text.now }
    ensures back { result.1.now ≡ after separator text.now }
{
    match text.iter().position(|byte| *byte == separator) {
        Some(end) => (&text[..end], &text[end + 1..]),
        None => (text, &[]),
    }
}
