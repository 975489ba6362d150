// The listing of a text: the words that it assembles to, each with its address and what it says, then the totals; or the one line
// of a refusal. It is written twice. The first time goes into a scratch buffer of one byte and only counts, so that 19 is known
// before anything is written into the lent one.
#![tactic(auto)]

mod decoding;
mod lines;
mod listing;

pub use listing::list;
