// The source text, line by line: a reader that holds the text and its position.
#![tactic(auto)]

mod foreign;
mod lines;

pub use foreign::foreign_line;
pub use lines::LineReader;
