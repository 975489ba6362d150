// What every part shares: the refusals of document 01 with their numbers, the two bytes of a word,
// the sums of an address, the two ways of counting along a program, and a name in a table.
#![tactic(auto)]

mod addresses;
mod counts;
mod halves;
mod names;
mod refusals;

pub use addresses::{base_plus_shift, raised_pc, second_address};
pub use counts::{ByteAddress, InstructionIndex};
pub use halves::{high, low, word};
pub use names::Name;
pub use refusals::Refusal;
