// The lines of a text of calls.
ghost use Rattle.std.specs.Prelude.{◌≡◌, [], length, MatchOption};
ghost use Rattle.std.specs.Iterator.{at_most};
ghost use Rattle.calls.specs.Cuts.{before, after, shorn};
ghost use Rattle.calls.specs.Text.{blank, passed_over};

use crate::cuts::cut;

// What is left of a text, from the start of a line on.
#[derive(Drop)]
pub struct Lines<'a> {
    rest: &'a [u8],
}

// A line without the carriage return before its line feed.
fn shear(line: &[u8]) -> &[u8]
    ensures { result.now ≡ shorn line.now }
{
    line.strip_suffix(b"\r").unwrap_or(line)
}

impl<'a> Lines<'a> {
    pub fn new(text: &'a [u8]) -> Lines<'a>
        ensures { result.rest.now ≡ text.now }
    {
        Lines { rest: text }
    }
}

// The lines without their ends, until the text is used up.
impl<'a> Iterator for Lines<'a> {
    type Item = &'a [u8];

    ghost next_gives = { λ s r t. MatchOption r (s.rest.now ≡ []) (λ l. l.now ≡ shorn (before 10 s.rest.now)) × (t.rest.now ≡ after 10 s.rest.now) };

    ghost remaining = { λ s. at_most (length s.rest.now) };

    fn next(&mut self) -> Option<&'a [u8]> {
        if self.rest.is_empty() {
            return None;
        }
        let (line, rest) = cut(self.rest, b'\n');
        self.rest = rest;
        Some(shear(line))
    }
}

// Nothing but spaces and tabs.
fn is_blank(line: &[u8]) -> bool
    ensures { result ≡ blank line.now }
{
    line.iter().all(|byte| matches!(byte, b' ' | b'\t'))
}

// A line that is no call: blank, or one that begins with `#`.
pub fn is_passed_over(line: &[u8]) -> bool
    ensures { result ≡ passed_over line.now }
{
    line.starts_with(b"#") || is_blank(line)
}
