use stack::Span;

// The clauses of a file: their literals one after another, and a span for each clause.
#[derive(Drop)]
pub struct ClauseFile {
    pub literals: Vec<u32>,
    pub spans: Vec<Span>,
}
