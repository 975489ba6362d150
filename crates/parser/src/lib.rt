// What a line of assembly says: an instruction, or a reference that waits for a label's address.
#![tactic(auto)]

mod brackets;
mod forms;
mod jumps;
mod lines;
mod names;
mod operands;
mod references;
mod registers;

use instruction::Instruction;
pub use lines::parse;
pub use references::resolved;

// An instruction that names a label, before it has the label's address.
#[derive(Clone, Copy, Debug, PartialEq, Eq)]
pub enum Reference {
    Jmp,
    CondJmp,
    Call,
}

// What the tokens of a line say. The name that a reference waits for is the line's second token.
#[derive(Clone, Copy)]
pub enum Parsed {
    Is(Instruction),
    Refers(Reference),
}
