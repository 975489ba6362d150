// Assembly text for words, such that plain assembly of it gives the very same words. A first walk looks for a word that no line
// gives, a second marks the addresses that jumps and calls use, and then the text is written twice: the first time goes into a
// scratch buffer of one byte and only counts, so that 19 is known before anything is written into the lent one.
#![tactic(auto)]

mod aims;
mod lines;
mod marks;
mod texts;
mod words;

use base::Refusal;
pub use texts::{text, text_of_bytes};

// A refusal, with the word's index for NoText and 0 for each other.
#[derive(Clone, Copy, Debug, PartialEq, Eq)]
pub struct Fault {
    pub refusal: Refusal,
    pub index: usize,
}
