// The block of 87 bytes that a C host holds a machine's state in: which bytes are one, the state of a block, the block of a state.
#![tactic(auto)]

mod entries;
mod packing;
mod unpacking;

pub use packing::pack;
pub use unpacking::{is_block, unpack};
