// The text of an instruction, by an edition of the instruction set: a listing shows the first's. The text is made whole in a line
// of its own and copied afterwards, so that a refusal has written nothing.
#![tactic(auto)]

mod decimals;
mod lines;
mod names;
mod operands;
mod prints;
mod texts;

pub use decimals::decimal;
pub use lines::Line;
pub use prints::{print, print_in, print_word};
pub use texts::text;
