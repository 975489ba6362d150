// The single line, with a given label table and the text that its places point into.
#![tactic(auto)]

mod lines;

pub use lines::parse_assembly_line;
