// Lines that open a machine.
use crate::session::{Kind, Load, Session, first_lengths};
use calls::{Answer, Counts, Lines};
use circuit::Circuit;
use circuit_text::read;
use machine::Machine;
use refusal::Refusal;

// Next literals, outputs and operands of the largest admitted circuit: 2 * 16,383 + 32.
const CIRCUIT_NUMBERS: usize = 32_798;

// The answer to a call that opened a machine.
fn opened<'a, M: Machine>(machine: &M) -> Answer<'a> {
    Answer::Opened(Counts {
        inputs: machine.inputs(),
        state_bits: machine.state_bits(),
        rules: machine.rules(),
        variables: machine.variables(),
        clauses: machine.clauses(),
    })
}

// Sets a circuit to what a text has.
fn read_circuit<'c>(
    circuit: &mut Circuit<'c>,
    text: &[u8],
    area: &'c mut [u32],
) -> Result<(), Refusal> {
    let header = read(text, area)?;
    circuit.set(header, area)?;
    Ok(())
}

impl Session<'_> {
    // Answers that a machine is open, and carries out the lines after it.
    fn serve_opened<'a, M: Machine>(
        &mut self,
        lines: &mut Lines<'a>,
        line: &[u8],
        machine: &M,
    ) -> anyhow::Result<Option<Load<'a>>> {
        self.lengths = first_lengths(machine.variables() as u32);
        self.say(line, &opened(machine))?;
        self.serve(lines, Some(machine))
    }

    // Answers that no machine is open, and carries out the lines after it.
    fn serve_refused<'a>(
        &mut self,
        lines: &mut Lines<'a>,
        line: &[u8],
        answer: &Answer<'_>,
    ) -> anyhow::Result<Option<Load<'a>>> {
        self.say(line, answer)?;
        self.serve_closed(lines)
    }

    // Opens the circuit that a text has.
    fn open_circuit<'a>(
        &mut self,
        lines: &mut Lines<'a>,
        line: &[u8],
        text: &[u8],
    ) -> anyhow::Result<Option<Load<'a>>> {
        let mut area = vec![in self.rt.alloc(); 0u32; CIRCUIT_NUMBERS]?;
        let mut circuit = circuit::smallest();
        match read_circuit(&mut circuit, text, area.as_mut_slice()) {
            Ok(()) => self.serve_opened(lines, line, &circuit),
            Err(refusal) => self.serve_refused(lines, line, &refusal.into()),
        }
    }

    // Opens the step table that bytes are.
    fn open_table<'a>(
        &mut self,
        lines: &mut Lines<'a>,
        line: &[u8],
        bytes: &[u8],
    ) -> anyhow::Result<Option<Load<'a>>> {
        let mut table = step_table::smallest();
        match table.read(bytes) {
            Ok(()) => self.serve_opened(lines, line, &table),
            Err(refusal) => self.serve_refused(lines, line, &Refusal::from(refusal).into()),
        }
    }

    // Opens the machine that a line names, and carries out the lines after it.
    pub(crate) fn load<'a>(
        &mut self,
        lines: &mut Lines<'a>,
        load: Load<'a>,
    ) -> anyhow::Result<Option<Load<'a>>> {
        match self.contents(load.file) {
            Ok(bytes) => match load.kind {
                Kind::Circuit => self.open_circuit(lines, load.line, &bytes),
                Kind::Table => self.open_table(lines, load.line, &bytes),
            },
            Err(answer) => self.serve_refused(lines, load.line, &answer),
        }
    }
}
