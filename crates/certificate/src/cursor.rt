ghost use Rattle.std.specs.Prelude.{◌+◌, ◌^◌, ◌<◌, length};

// The bytes of a certificate that are yet to be read, and how many were taken before them.
#[derive(Drop)]
pub struct Cursor<'a> {
    pub(crate) rest: &'a [u8],
    pub(crate) offset: usize,
    ghost counted: { offset + length rest.now < 2 ^ 64 },
}
