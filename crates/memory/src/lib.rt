// Memory: lent linear bytes and lent device bytes, behind a map by value. Bytes, words, a program, reading out.
// A store is decided first and made afterwards, so that a refusal has stored nothing.
#![tactic(auto)]

mod blocks;
mod bytes;
mod program;
mod words;

use base::Refusal;
pub use blocks::read_out;
pub use bytes::{read_at, read_byte, store_at, store_byte, takes_byte};
use map::Place;
pub use program::write_program;
pub use words::{decide_byte, decide_word, fetch_word, make, read_word, store_word};

// What becomes of a store that is not refused.
#[derive(Clone, Copy)]
pub enum Stored {
    Done,
    Failed,
}

// A byte to be stored: its address, the place that takes it, and the byte.
#[derive(Clone, Copy)]
pub struct Change {
    pub address: u16,
    pub place: Place,
    pub byte: u8,
}

// The bytes to be stored, in their order. (d): none, one or two is what a step can store, and a match names each.
#[derive(Clone, Copy)]
pub enum Changes {
    Nothing,
    One(Change),
    Two(Change, Change),
}

// A store that is decided and not yet made. A word's is refused at the last address alone.
#[derive(Clone, Copy)]
pub struct Decision {
    pub outcome: Result<Stored, Refusal>,
    pub changes: Changes,
}
