// Dockets: what the lawful certificates handed in have shown of a machine's rules.
#![tactic(auto)]

ghost use Rattle.std.specs.Prelude.{◌≡◌, List, [], length, replicate, nat_lt, if◌then◌else◌};
ghost use Rattle.refusal.specs.declared.faults.DocketFault.TheVariants.{NoRule};
ghost use Rattle.docket.specs.Books.{Sound, answer, after, accounted};
ghost use Rattle.docket.specs.Calls.{Made, handing, look_up, tally, strike};
ghost use Rattle.docket.specs.Law.{Law};
ghost use Rattle.docket.specs.Reached.{Reached, Reaches};

use areas::Cleared;
use book::Book;
use checking::{Accepted, check};
use machine::Machine;
use refusal::{DocketFault, Refusal};
use stack::Span;

mod book;
mod texts;

pub use book::{Account, Standing, Tally};

// A docket on one machine.
#[derive(Drop)]
pub struct Docket<'m, M: Machine> {
    machine: &'m M,
    book: Book,
    ghost sound: { Sound book },
}

impl<'m, M: Machine> Docket<'m, M> {
    // A docket with every rule open and all counts 0.
    pub fn open(machine: &'m M) -> Docket<'m, M>
        ensures same { result.machine.now ≡ machine.now }
        ensures reached { Reached (M.meaning result.machine.now) [] result.book }
    {
        Docket {
            machine,
            book: Book::default(),
        }
    }

    // Checks a certificate for a rule, counts it, and enters what it shows.
    pub fn hand_in(
        &mut self,
        rule: u32,
        bytes: &[u8],
        row: &mut [u8],
        literals: &mut [u32],
        spans: &mut [Span],
    ) -> Result<Accepted, Refusal>
        ensures same { self.new.machine.now ≡ self.old.machine.now }
        ensures said { result ≡ answer (M.meaning self.old.machine.now) (handing rule bytes.now row.old literals.old spans.old) self.old.book }
        ensures book { self.new.book ≡ after (M.meaning self.old.machine.now) (handing rule bytes.now row.old literals.old spans.old) self.old.book }
        ensures reached { Reaches (M.meaning self.old.machine.now) self.old.book (handing rule bytes.now row.old literals.old spans.old) result (M.meaning self.new.machine.now) self.new.book }
        ensures row { row.new ≡ replicate (length row.old) 0 }
        ensures literals { literals.new ≡ replicate (length literals.old) 0 }
        ensures spans { spans.new ≡ replicate (length spans.old) (record { start = 0; length = 0 }) }
    {
        let row = Cleared(row);
        let literals = Cleared(literals);
        let spans = Cleared(spans);
        if !self.book.has_room() {
            return Err(Refusal::Docket(DocketFault::TooMany));
        }
        let result = check(self.machine, rule, bytes, row.0, literals.0, spans.0);
        self.book.note(rule, result);
        result
    }

    // The place of a rule in the book, if the machine has that rule.
    fn place(&self, rule: u32) -> Result<usize, DocketFault>
        ensures { result ≡ (if nat_lt rule (M.meaning self.now.machine.now).rules then Ok rule else Err NoRule) }
    {
        let place = rule as usize;
        if place >= self.machine.rules() {
            return Err(DocketFault::NoRule);
        }
        Ok(place)
    }

    // The standing of a rule.
    pub fn look_up(&self, rule: u32) -> Result<Standing, DocketFault>
        ensures said { result ≡ answer (M.meaning self.now.machine.now) (look_up rule) self.now.book }
        ensures reached { Reaches (M.meaning self.now.machine.now) self.now.book (look_up rule) result (M.meaning self.now.machine.now) self.now.book }
    {
        let place = self.place(rule)?;
        Ok(self.book.standings[place])
    }

    // The counts.
    pub fn tally(&self) -> Tally
        ensures said { result ≡ answer (M.meaning self.now.machine.now) tally self.now.book }
        ensures reached { Reaches (M.meaning self.now.machine.now) self.now.book tally result (M.meaning self.now.machine.now) self.now.book }
    {
        self.book.tally
    }

    // Makes a rule open that is not.
    pub fn strike(&mut self, rule: u32) -> Result<(), DocketFault>
        ensures same { self.new.machine.now ≡ self.old.machine.now }
        ensures said { result ≡ answer (M.meaning self.old.machine.now) (strike rule) self.old.book }
        ensures book { self.new.book ≡ after (M.meaning self.old.machine.now) (strike rule) self.old.book }
        ensures reached { Reaches (M.meaning self.old.machine.now) self.old.book (strike rule) result (M.meaning self.new.machine.now) self.new.book }
    {
        let place = self.place(rule)?;
        if !self.book.is_entered(place) {
            return Err(DocketFault::NotEntered);
        }
        self.book.strike_out(place);
        Ok(())
    }

    // Every rule's standing and the counts, of which the law of dockets holds.
    pub fn account(&self) -> Account
        ensures said { result ≡ accounted (M.meaning self.now.machine.now) self.now.book }
        ensures law { (h : List Made) → Reached (M.meaning self.now.machine.now) h self.now.book → Law (M.meaning self.now.machine.now) h result }
    {
        Account {
            rules: self.machine.rules(),
            standings: self.book.standings,
            tally: self.tally(),
        }
    }
}

#[cfg(test)]
mod tests;
