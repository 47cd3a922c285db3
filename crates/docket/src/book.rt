// What a docket holds of its machine's rules.
ghost use Rattle.std.specs.Prelude.{◌≡◌, ◌<◌, true, false, OnOk, nat_lt, slice_index_or};
ghost use Rattle.docket.specs.Books.{Sound, most, claimed, fresh, noted, struck, if_entered};
ghost use Rattle.docket.specs.declared.book.Standing.TheVariants.{Open};

use checking::{Accepted, Claim};
use refusal::Refusal;

// How many hand ins a docket counts at most.
const MOST: u32 = 1_000_000;

// What a docket says of a rule.
#[derive(Clone, Copy, PartialEq, Eq, Debug)]
pub enum Standing {
    Open,
    Kept,
    Broken,
}

// How many hand ins were counted, how many of them accepted and refused, and how many strikes were granted.
#[derive(Clone, Copy, Default, PartialEq, Eq, Debug)]
pub struct Tally {
    pub handed_in: u32,
    pub accepted: u32,
    pub refused: u32,
    pub struck: u32,
}

// Every rule's standing and the tally; standings at or beyond the number of rules are open.
#[derive(Clone, Copy, Debug)]
pub struct Account {
    pub rules: usize,
    pub standings: [Standing; 32],
    pub tally: Tally,
}

// What a docket keeps of the calls made on it.
#[derive(Clone, Copy)]
pub struct Book {
    pub(crate) standings: [Standing; 32],
    pub(crate) tally: Tally,
}

// A fresh book: every rule open, all counts 0.
impl Default for Book {
    ghost is_default = { λ b. b ≡ fresh };

    fn default() -> Book {
        Book {
            standings: [Standing::Open; 32],
            tally: Tally::default(),
        }
    }
}

// What a claim says of its rule.
impl From<Claim> for Standing {
    ghost from_gives = { λ c s. s ≡ claimed c };

    fn from(claim: Claim) -> Standing {
        match claim {
            Claim::Trace | Claim::Induction => Standing::Kept,
            Claim::Counterexample => Standing::Broken,
        }
    }
}

impl Book {
    // Whether one more hand in is counted.
    pub(crate) fn has_room(&self) -> bool
        ensures { result ≡ nat_lt self.now.tally.handed_in most }
    {
        self.tally.handed_in < MOST
    }

    // Counts a hand in, and enters what its certificate showed.
    pub(crate) fn note(&mut self, rule: u32, res: Result<Accepted, Refusal>)
        requires sound { Sound self.old }
        requires room { self.old.tally.handed_in < most }
        requires inside { OnOk res (rule < 32) }
        ensures { self.new ≡ noted rule res self.old }
    {
        match res {
            Ok(accepted) => {
                self.standings[rule as usize] = accepted.claim.into();
                self.tally.accepted += 1;
            }
            Err(_) => self.tally.refused += 1,
        }
        self.tally.handed_in += 1;
    }

    // Whether the rule in a place is not open.
    pub(crate) fn is_entered(&self, place: usize) -> bool
        requires inside { place < 32 }
        ensures { result ≡ if_entered (slice_index_or self.now.standings place Open) true false }
    {
        self.standings[place] != Standing::Open
    }

    // Makes the rule in a place open.
    pub(crate) fn strike_out(&mut self, place: usize)
        requires sound { Sound self.old }
        requires inside { place < 32 }
        ensures { self.new ≡ struck place self.old }
    {
        self.standings[place] = Standing::Open;
        self.tally.struck += 1;
    }
}
