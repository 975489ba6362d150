// The assembler: a text to words, plain or strict. Lines come from the reader, labels go into the lent table, and what a line does
// is `asm`'s.
#![tactic(auto)]

mod lines;
mod texts;

pub use texts::{assemble, assemble_words};
