// The sizes of a step table.
ghost use Rattle.std.specs.Prelude.{◌≡◌, ◌+◌, ◌^◌, ◌≤◌, ◌&&◌, nat_le, nat_lt};
ghost use Rattle.std.specs.Result.{result_map_both};
ghost use Rattle.table_format.specs.Records.{sizes_taken};

use refusal::TableFault;

// Sizes in bounds.
#[derive(Clone, Copy)]
pub(crate) struct Sizes {
    inputs: u8,
    state_bits: u8,
    rules: u8,
    ghost few_bits: { inputs + state_bits ≤ 10 },
    ghost few_rules: { rules ≤ 32 },
}

// Whether sizes are in bounds.
fn fit(inputs: u8, state_bits: u8, rules: u8) -> bool
    ensures { result ≡ (nat_le (inputs + state_bits) 10 && (nat_le 1 rules && nat_le rules 32)) }
{
    let bits = u16::from(inputs) + u16::from(state_bits);
    bits <= 10 && (1..=32).contains(&rules)
}

impl Sizes {
    // The sizes that stand first, in bounds, and the bytes after them.
    pub(crate) fn first(bytes: &[u8]) -> Result<(Sizes, &[u8]), TableFault>
        ensures { result_map_both (λ p. ((p.0.inputs, p.0.state_bits, p.0.rules), p.1.now)) (λ fault. fault) result ≡ sizes_taken bytes.now }
    {
        match *bytes {
            [1, inputs, state_bits, rules, ref rest @ ..] if fit(inputs, state_bits, rules) => {
                Ok((
                    Sizes {
                        inputs,
                        state_bits,
                        rules,
                    },
                    rest,
                ))
            }
            [1, _, _, _, ..] => Err(TableFault::Sizes),
            _ => Err(TableFault::NoSizes),
        }
    }

    // How many rows a table of these sizes has.
    pub(crate) fn rows(&self) -> usize
        ensures count { result ≡ 2 ^ (self.now.inputs + self.now.state_bits) }
        ensures few { result ≤ 1024 }
    {
        1 << (self.inputs + self.state_bits)
    }

    // Whether there are such a next state and such broken rules.
    pub(crate) fn hold(&self, next: u16, broken: u32) -> bool
        ensures { result ≡ (nat_lt next (2 ^ self.now.state_bits) && nat_lt broken (2 ^ self.now.rules)) }
    {
        u32::from(next) < 1 << self.state_bits && u64::from(broken) < 1 << self.rules
    }
}
