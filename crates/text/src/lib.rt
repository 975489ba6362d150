// Text as the assembler looks at it: blanks, lines, tokens as parts of the text they occupy, immediates.
#![tactic(auto)]

mod blanks;
mod immediates;
mod lines;
mod parts;
mod tokens;

pub use blanks::past_blanks;
pub use immediates::parse_immediate;
pub use lines::line_end;
pub use parts::{drop_final, drop_leading, same, trim_end};
pub use tokens::{count_tokens, second_start, token};
