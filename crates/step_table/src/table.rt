ghost use Rattle.table_format.specs.Tables.{Good};

// A step table within bounds: exactly its bytes, which are read in place.
#[derive(Clone, Copy)]
pub struct StepTable<'a> {
    pub(crate) bytes: &'a [u8],
    ghost good: { Good bytes.now },
}
