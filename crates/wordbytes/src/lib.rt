// Words as bytes, the low byte of each first: a word at a byte of a buffer, some in a row, and a whole buffer of them.
#![tactic(auto)]

mod buffers;
mod places;

pub use buffers::{read_words, write_words};
pub use places::{put_word, put_words, word_at, words_at};
