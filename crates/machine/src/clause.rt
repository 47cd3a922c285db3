ghost use Rattle.std.specs.Prelude.{◌≤◌};

// A clause by value, of at most 16 literals: the first `length` of its places.
#[derive(Clone, Copy)]
pub struct Clause {
    pub(crate) literals: [u32; 16],
    pub(crate) length: usize,
    ghost short: { length ≤ 16 },
}
