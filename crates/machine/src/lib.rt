// Rule machines: the trait that each implements, its meaning and its law.
#![tactic(auto)]

ghost use Rattle.std.specs.Prelude.{◌≡◌, ℕ, ◌+◌, ◌<◌, ◌≤◌, Bool, true, false, List, [], ◌∷◌, ◌++◌, length, take, ◌↔◌, IsOk, MatchResult, slice_index};
ghost use Rattle.std.specs.Option.{option_map};
ghost use Rattle.machine.specs.Clauses.{listed};
ghost use Rattle.machine.specs.Lists.{entry};
ghost use Rattle.machine.specs.Meaning.{Meaning, Lawful};
ghost use Rattle.machine.specs.Rows.{Fill, Ready};

use refusal::{DocketFault, Full};

mod clause;

pub use clause::Clause;

impl Clause {
    pub fn empty() -> Clause
        ensures { listed result ≡ [] }
    {
        Clause {
            literals: [0; 16],
            length: 0,
        }
    }

    // One literal more at the end; refused, and unchanged, where 16 stand.
    pub fn push(&mut self, literal: u32) -> Result<(), Full>
        ensures room { IsOk result ↔ (length (listed self.old) < 16) }
        ensures literals { MatchResult result
            (λ _. listed self.new ≡ listed self.old ++ literal ∷ [])
            (λ _. self.new ≡ self.old) }
    {
        if self.length >= 16 {
            return Err(Full);
        }
        self.literals[self.length] = literal;
        self.length += 1;
        Ok(())
    }

    // The clause of these literals, of which at most 16 are taken.
    pub fn of(literals: &[u32]) -> Clause
        ensures { listed result ≡ take 16 literals.now }
    {
        let length = literals.len().min(16);
        let mut places = [0; 16];
        places[..length].copy_from_slice(&literals[..length]);
        Clause {
            literals: places,
            length,
        }
    }

    pub fn as_slice(&self) -> &[u32]
        ensures { result.now ≡ listed self.now }
    {
        &self.literals[0..self.length]
    }
}

// Whether each of these bytes is 0 or 1.
fn are_bits(bytes: &[u8]) -> bool
    ensures yes { result ≡ true → (k : ℕ) → k < length bytes.now → slice_index bytes.now k < 2 }
    ensures no { result ≡ false → ((k : ℕ) → k < length bytes.now → slice_index bytes.now k < 2) → ⊥ }
{
    bytes.iter().all(|byte| *byte <= 1)
}

// Whether a row has a byte for each variable, and 0 or 1 for each input and state bit.
pub fn can_fill(row: &[u8], given: usize, variables: usize) -> bool
    ensures yes { result ≡ true → Ready given variables row.now }
    ensures no { result ≡ false → Ready given variables row.now → ⊥ }
{
    let end = row.len().min(given.saturating_add(1));
    row.len() >= variables && are_bits(&row[end.min(1)..end])
}

pub trait Machine {
    ghost meaning: { Self → Meaning };

    ghost lawful: { (m : Self) → Lawful (meaning m) };

    fn inputs(&self) -> usize
        ensures { result ≡ (meaning self.now).inputs };

    fn state_bits(&self) -> usize
        ensures { result ≡ (meaning self.now).state_bits };

    fn rules(&self) -> usize
        ensures { result ≡ (meaning self.now).rules };

    fn variables(&self) -> usize
        ensures { result ≡ (meaning self.now).variables };

    fn clauses(&self) -> usize
        ensures { result ≡ length (meaning self.now).clauses };

    // What a state bit is in the start.
    fn start_bit(&self, bit: usize) -> Option<bool>
        ensures { result ≡ entry (meaning self.now).start bit };

    // The literal that gives a state bit of the next state.
    fn next_literal(&self, bit: usize) -> Option<u32>
        ensures { result ≡ entry (meaning self.now).next bit };

    // The literal that says that a rule is broken.
    fn rule_literal(&self, rule: usize) -> Option<u32>
        ensures { result ≡ entry (meaning self.now).rule rule };

    // A clause by its number from 0.
    fn clause(&self, number: usize) -> Option<Clause>
        ensures { option_map listed result ≡ entry (meaning self.now).clauses number };

    // Sets the bytes of the variables to the fit of the inputs and the state in the row.
    fn fill(&self, row: &mut [u8]) -> Result<(), DocketFault>
        ensures { Fill (meaning self.now) row.old row.new result };
}
