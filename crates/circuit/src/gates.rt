// The clauses of a gate, and the value of a literal in a row.
ghost use Rattle.std.specs.Prelude.{◌≡◌, ◌/◌, ◌^◌, ◌+◌, ◌*◌, ◌<◌, ◌≤◌, [], length, slice_index, slice_index_or};
ghost use Rattle.machine.specs.Clauses.{listed};
ghost use Rattle.machine.specs.Meaning.{lit};
ghost use Rattle.machine.specs.Rows.{bits, byte};
ghost use Rattle.aiger.specs.Numbers.{needed, gate_literal};
ghost use Rattle.aiger.specs.Evaluation.{clauses_of_gate};

use aiger::Header;
use machine::Clause;
use resolution::deny;

// The literal of a gate, counted from 0.
pub(crate) fn gate_literal(header: Header, gate: usize) -> u32
    requires { gate_literal header gate < 2 ^ 32 }
    ensures { result ≡ gate_literal header gate }
{
    2 * (1 + header.given() + gate) as u32
}

// The operands of a gate, counted from 0, as they stand in the area.
pub(crate) fn operands(header: Header, area: &[u32], gate: usize) -> (u32, u32)
    requires { (needed header ≤ length area.now) × (gate < header.gates) }
    ensures greater { result.0 ≡ slice_index area.now (header.latches + header.outputs + 2 * gate) }
    ensures less { result.1 ≡ slice_index area.now (header.latches + header.outputs + (2 * gate + 1)) }
{
    let at = header.heads() + 2 * gate;
    (area[at], area[at + 1])
}

// One of the three clauses of a gate with operands a and b, by its place among them.
pub(crate) fn gate_clause(gate: u32, a: u32, b: u32, place: usize) -> Clause
    requires { (gate < 2 ^ 16) × (place < 3) }
    ensures { listed result ≡ slice_index_or (clauses_of_gate gate a b) place [] }
{
    let (not_a, not_b) = (deny(a), deny(b));
    match place {
        0 => Clause::of(&[a, gate + 1]),
        1 => Clause::of(&[b, gate + 1]),
        _ if not_a < not_b => Clause::of(&[not_a, not_b, gate]),
        _ if not_b < not_a => Clause::of(&[not_b, not_a, gate]),
        _ => Clause::of(&[not_a, gate]),
    }
}

// The value of a literal in a row of bytes 0 and 1.
pub(crate) fn value(row: &[u8], literal: u32) -> u8
    requires { (literal / 2 < length row.now) × (slice_index row.now (literal / 2) < 2) }
    ensures { result ≡ byte (lit (bits row.now) literal) }
{
    row[(literal / 2) as usize] ^ (literal & 1) as u8
}
