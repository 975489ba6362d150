// What the assembler knows by name: labels with their addresses, and references that wait for a label, kept in lent slices.
// A name is the part of a text from `place` on, `length` bytes long. The table of labels itself is the crate `table`'s.
#![tactic(auto)]

mod entries;
mod opens;

use base::InstructionIndex;
pub use entries::names;
use parser::Reference;

// A label's name, and the byte address that it stands for.
#[derive(Clone, Copy)]
pub struct Label {
    pub place: usize,
    pub length: usize,
    pub address: u16,
}

// An open reference: the name it waits for, the number of the instruction that waits, and what it becomes.
#[derive(Clone, Copy)]
pub struct Open {
    pub place: usize,
    pub length: usize,
    pub word: InstructionIndex,
    pub reference: Reference,
}

// Which entry has a name, and the entry's address.
#[derive(Clone, Copy)]
pub struct Found {
    pub index: usize,
    pub address: u16,
}
