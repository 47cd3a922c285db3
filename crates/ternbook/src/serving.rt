// Lines carried out on an open machine, or on none.
use crate::asking::Asked;
use crate::session::{Kind, Load, Session};
use crate::stop::Stop;
use calls::{Answer, Call, Lines, is_passed_over, parse};
use circuit::Circuit;
use docket::Docket;
use machine::Machine;

// A machine that is open, and its docket.
#[derive(Drop)]
struct Open<'m, M: Machine> {
    machine: &'m M,
    docket: Docket<'m, M>,
}

impl<'m, M: Machine> Open<'m, M> {
    // With every rule open.
    fn new(machine: &'m M) -> Open<'m, M> {
        Open {
            machine,
            docket: Docket::open(machine),
        }
    }
}

// The stop of a line that opens a machine.
fn opens<'a>(line: &'a [u8], kind: Kind, file: &'a [u8]) -> Stop<'a> {
    Stop::Opens(Load { line, kind, file })
}

impl Session<'_> {
    // Carries out the call of a line, and prints its answer.
    fn carry_out<'a, M: Machine>(
        &mut self,
        open: Option<&mut Open<'_, M>>,
        line: &'a [u8],
    ) -> Result<(), Stop<'a>> {
        let open = open.ok_or(Answer::NoMachine);
        let answer = match parse(line).ok_or(Answer::NotUnderstood)? {
            Call::Circuit { file } => return Err(opens(line, Kind::Circuit, file)),
            Call::Table { file } => return Err(opens(line, Kind::Table, file)),
            Call::Areas(lengths) => {
                self.lengths = lengths;
                Answer::Lent(lengths)
            }
            Call::Refute { clauses, proof } => self.refute(clauses, proof)?,
            Call::Replay { rule, file } => self.replay(open?.machine, rule, file)?,
            Call::Question { rule, file, number } => {
                let asked = Asked {
                    line,
                    rule,
                    file,
                    number,
                };
                return self.ask(open?.machine, asked);
            }
            Call::HandIn { rule, file } => self.hand_in(&mut open?.docket, rule, file)?,
            Call::LookUp { rule } => Answer::Found(open?.docket.look_up(rule)?),
            Call::Tally => Answer::Counted(open?.docket.tally()),
            Call::Strike { rule } => {
                open?.docket.strike(rule)?;
                Answer::Struck
            }
            Call::Account => Answer::Listed(open?.docket.account()),
        };
        self.say(line, &answer)?;
        Ok(())
    }

    // Carries out lines until one opens a machine, or none is left.
    pub(crate) fn serve<'a, M: Machine>(
        &mut self,
        lines: &mut Lines<'a>,
        machine: Option<&M>,
    ) -> anyhow::Result<Option<Load<'a>>> {
        let mut open = machine.map(Open::new);
        for line in lines.by_ref().filter(|line| !is_passed_over(line)) {
            match self.carry_out(open.as_mut(), line) {
                Ok(()) => {}
                Err(Stop::Answered(answer)) => self.say(line, &answer)?,
                Err(Stop::Opens(load)) => return Ok(Some(load)),
                Err(Stop::Failed(error)) => return Err(error),
            }
        }
        Ok(None)
    }

    // The same while no machine is open.
    pub(crate) fn serve_closed<'a>(
        &mut self,
        lines: &mut Lines<'a>,
    ) -> anyhow::Result<Option<Load<'a>>> {
        self.serve::<Circuit<'static>>(lines, None)
    }
}
