// Reading records from bytes.
ghost use Rattle.std.specs.Prelude.{◌≡◌, ◌+◌, length, ◌==◌, ⊤};
ghost use Rattle.std.specs.Option.{option_map};
ghost use Rattle.std.specs.Iterator.{at_most, MakesProgress};
ghost use Rattle.certificate.specs.Records.{read, read_bare, record_of, left_of, Taken, Bytes};

use crate::{Cursor, Record};

// The first record of the bytes where it has no body, and the bytes after it.
#[tactic(auto, using(std::proofs::lemmas::List::take_rest, std::proofs::lemmas::Bool::Decides::nat_tests), unfolding(crate::specs::Records::read_bare))]
fn first_bare(bytes: &[u8]) -> Option<(Record, &[u8])>
    ensures { option_map (λ p. (p.0, p.1.now)) result ≡ read_bare bytes.now }
{
    match bytes {
        [3, rest @ ..] => Some((Record::ClauseEnd, rest)),
        [4, rest @ ..] => Some((Record::FrameEnd, rest)),
        [7, rest @ ..] => Some((Record::RefutationEnd, rest)),
        [9, rest @ ..] => Some((Record::RowEnd, rest)),
        [10, rest @ ..] => Some((Record::End, rest)),
        _ => None,
    }
}

// The first record of the bytes, and the bytes after it; every number in the slice is a byte, so that no two records are written alike.
#[tactic(auto, using(std::proofs::lemmas::List::take_rest, std::proofs::lemmas::Bool::Decides::nat_tests), unfolding(crate::specs::Records::read))]
fn first(bytes: &[u8]) -> Option<(Record, &[u8])>
    ensures value { option_map (λ p. (p.0, p.1.now)) result ≡ read bytes.now }
    ensures bytes { Bytes bytes.now }
{
    match bytes {
        [1, claim, a, b, c, d, rest @ ..] => {
            let size = u32::from_le_bytes([*a, *b, *c, *d]);
            Some((
                Record::Claim {
                    claim: *claim,
                    size,
                },
                rest,
            ))
        }
        [2, a, b, c, d, rest @ ..] => Some((
            Record::Literal(u32::from_le_bytes([*a, *b, *c, *d])),
            rest,
        )),
        [5, a, b, c, d, rest @ ..] => Some((
            Record::Take(u32::from_le_bytes([*a, *b, *c, *d])),
            rest,
        )),
        [6, a0, a1, a2, a3, b0, b1, b2, b3, c0, c1, c2, c3, rest @ ..] => {
            let left = u32::from_le_bytes([*a0, *a1, *a2, *a3]);
            let right = u32::from_le_bytes([*b0, *b1, *b2, *b3]);
            let pivot = u32::from_le_bytes([*c0, *c1, *c2, *c3]);
            Some((Record::Resolve { left, right, pivot }, rest))
        }
        [8, bit, rest @ ..] => Some((Record::Bit(*bit), rest)),
        _ => first_bare(bytes),
    }
}

impl<'a> Cursor<'a> {
    pub fn new(bytes: &'a [u8]) -> Cursor<'a>
        ensures rest { result.rest.now ≡ bytes.now }
        ensures offset { result.offset ≡ 0 }
    {
        Cursor {
            rest: bytes,
            offset: 0,
        }
    }

    // How many bytes were taken.
    pub fn offset(&self) -> usize
        ensures { result ≡ self.now.offset }
    {
        self.offset
    }

    // Whether no byte is left.
    pub fn at_end(&self) -> bool
        ensures { result ≡ (length self.now.rest.now == 0) }
    {
        self.rest.is_empty()
    }
}

// The records from here on; none where no kind 1 to 10 stands with its whole body, and then nothing is taken.
impl Iterator for Cursor<'_> {
    type Item = Record;

    ghost next_gives = { λ before taken after. Taken before.rest.now after.rest.now taken };

    // each record has a byte of its own
    ghost remaining = { λ c. at_most (length c.rest.now) };

    fn next(&mut self) -> Option<Record>
        ensures goes { MakesProgress (λ _. ⊤) (λ c. at_most (length c.rest.now)) self.old result self.new }
        ensures value { result ≡ record_of self.old.rest.now }
        ensures rest { self.new.rest.now ≡ left_of self.old.rest.now }
        ensures offset { self.new.offset + length self.new.rest.now ≡ self.old.offset + length self.old.rest.now }
        ensures exact { Taken self.old.rest.now self.new.rest.now result }
    {
        let (record, rest) = first(self.rest)?;
        *self = Cursor {
            rest,
            offset: self.offset + (self.rest.len() - rest.len()),
        };
        Some(record)
    }
}
