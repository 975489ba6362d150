// The label table as a lent slice of entries: place, length, byte address. It is read by `find` and written by `define`, two thin
// functions.
#![tactic(auto)]

mod entries;

pub use entries::{clear, define, find};
