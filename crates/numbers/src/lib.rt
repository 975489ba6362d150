// The numbers between a C host and the entries: the one that it gets for an answer, and ranges as its size_t has them.
#![tactic(auto)]

mod answers;
mod ranges;

pub use answers::{bad_block, of_answer, of_assembly, of_count, of_run, of_step, of_text};
pub use ranges::narrow;
