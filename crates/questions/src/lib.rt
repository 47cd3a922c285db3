// The questions of a trace of frames, as lists of clauses.
#![tactic(auto)]

mod closing;
mod framed;
mod list;
mod question;
mod rows;

pub use list::TraceList;
pub use question::{TraceQuestion, trace_question, trace_questions};
