// The program: carries out calls, one a line, and prints each with its answer.
#![tactic(auto)]

use anyhow::ensure;
use calls::Lines;
use session::Session;
use std::io::Read;
use std::{env, fs};

mod asking;
mod docketing;
mod files;
mod loading;
mod serving;
mod session;
mod stop;

const HELP: &str = "usage: ternbook [FILE]
Carries out calls, one a line, from FILE or from standard input:
  circuit FILE      opens an ordered ASCII AIGER circuit
  table FILE        opens a step table
  areas B L P       lends areas of B bytes, L literals and P places
  replay R FILE     checks a counterexample certificate for rule R
  question R FILE Q prints question Q of a certificate for rule R
  hand in R FILE    hands in a certificate for rule R
  look up R         says whether rule R is open, kept or broken
  tally             counts the hand ins and strikes
  strike R          makes rule R open
  account           says all of this at once
  refute C P        checks that the proof in P refutes the clauses in C";

// Carries out every line of a text; false where one could not be carried out.
fn carry_out(rt: &HostRuntime, text: &[u8]) -> anyhow::Result<bool> {
    let mut session = Session::new(rt);
    let mut lines = Lines::new(text);
    let mut next = session.serve_closed(&mut lines)?;
    // a line takes a byte at least, so there are no more loads than bytes
    for _ in 0..text.len() {
        let Some(wanted) = next else {
            break;
        };
        next = session.load(&mut lines, wanted)?;
    }
    Ok(session.all_carried_out)
}

// The calls that standard input has.
fn read_input(rt: &HostRuntime) -> anyhow::Result<Vec<u8>> {
    let mut text = Vec::new(rt.alloc());
    rt.stdin().read_to_end(&mut text)?;
    Ok(text)
}

fn main(rt: HostRuntime) -> anyhow::Result<()> {
    let text = match env::args(&rt)?.nth(1) {
        Some(word) if word.as_str() == "--help" => {
            println!(rt; "{HELP}")?;
            return Ok(());
        }
        Some(file) => fs::read(&rt, file.as_str())?,
        None => read_input(&rt)?,
    };
    ensure!(carry_out(&rt, &text)?, "not every line was carried out");
    Ok(())
}
