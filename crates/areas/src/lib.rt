// Work areas that a caller lends, and guards that clear them when they go.
#![tactic(auto)]

ghost use Rattle.std.specs.Prelude.{◌≡◌, length, replicate};

// An entry of a work area, with the value that a cleared entry has.
pub trait Blank: Copy {
    ghost empty: { Self };

    fn blank() -> Self
        ensures { result ≡ Self.empty };
}

impl Blank for u32 {
    ghost empty = { 0 };

    fn blank() -> u32 {
        0
    }
}

impl Blank for u8 {
    ghost empty = { 0 };

    fn blank() -> u8 {
        0
    }
}

// Sets every entry to its cleared value.
pub fn clear<T: Blank>(area: &mut [T])
    ensures { area.new ≡ replicate (length area.old) T.empty }
{
    let blank = T::blank();
    for entry in area.iter_mut() {
        *entry = blank;
    }
}

// A lent area that is cleared when the guard is dropped, whatever way the call ends.
pub struct Cleared<'a, T: Blank>(pub &'a mut [T]);

impl<T: Blank> Drop for Cleared<'_, T> {
    fn drop(self)
        ensures { self.exit.0.now ≡ replicate (length self.entry.0.now) T.empty }
    {
        clear(self.0);
        let Cleared(_) = self;
    }
}
