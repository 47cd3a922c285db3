// The calls of the program, one a line, and the text of their answers.
#![tactic(auto)]

mod answer;
mod call;
mod clause_line;
mod cuts;
mod lines;
mod text;

pub use answer::{Answer, Counts, Lengths};
pub use call::Call;
pub use clause_line::ClauseLine;
pub use lines::parse;
pub use text::{Lines, is_passed_over};
