ghost use Rattle.std.specs.Prelude.{◌≡◌, length};
ghost use Rattle.aiger.specs.Numbers.{Good, needed};

use aiger::Header;

// A circuit: its header, and a lent area of exactly its numbers (next literals, outputs, then a and b of each gate).
#[derive(Clone, Copy)]
pub struct Circuit<'a> {
    pub(crate) header: Header,
    pub(crate) area: &'a [u32],
    ghost good: { Good header area.now },
    ghost whole: { length area.now ≡ needed header },
}
