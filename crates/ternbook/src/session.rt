// What the lines so far have left, and how each answer is printed.
use calls::{Answer, Lengths};
use stack::{MOST_LITERALS, MOST_SPANS};
use std::fs;
use std::io::Write;

// The lengths until a line sets others: the bytes of a row, and the longest areas of a stack.
pub(crate) fn first_lengths(bytes: u32) -> Lengths {
    Lengths {
        bytes,
        literals: MOST_LITERALS as u32,
        places: MOST_SPANS as u32,
    }
}

// The kinds of machine that a line can open.
#[derive(Clone, Copy)]
pub(crate) enum Kind {
    Circuit,
    Table,
}

// A line that opens a machine, the machine's kind, and its file.
#[derive(Clone, Copy)]
pub(crate) struct Load<'a> {
    pub(crate) line: &'a [u8],
    pub(crate) kind: Kind,
    pub(crate) file: &'a [u8],
}

// The runtime, and what the lines so far have left.
#[derive(Drop)]
pub(crate) struct Session<'r> {
    pub(crate) rt: &'r HostRuntime,
    pub(crate) lengths: Lengths,
    pub(crate) all_carried_out: bool,
}

impl<'r> Session<'r> {
    // No line is carried out, and no machine is open.
    pub(crate) fn new(rt: &'r HostRuntime) -> Session<'r> {
        Session {
            rt,
            lengths: first_lengths(0),
            all_carried_out: true,
        }
    }
}

impl Session<'_> {
    // Prints a line and its answer.
    pub(crate) fn say(&mut self, line: &[u8], answer: &Answer<'_>) -> anyhow::Result<()> {
        self.all_carried_out &= answer.carried_out();
        self.rt.stdout().write_all(line)?;
        println!(self.rt; " -> {answer}")?;
        Ok(())
    }

    // The bytes of a file, or the answer that it cannot be read.
    pub(crate) fn contents<'a>(&self, file: &'a [u8]) -> Result<Vec<u8>, Answer<'a>> {
        let name = std::str::from_utf8(file).map_err(|_| Answer::NotUnderstood)?;
        fs::read(self.rt, name).map_err(|_| Answer::CannotRead(name))
    }
}
