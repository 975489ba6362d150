// A line of assembly and what it does: to the words, to the labels, and to the references that wait for one. Plain or strict.
#![tactic(auto)]

mod clearing;
mod encoding;
mod labelling;
mod patching;
mod reading;
mod referring;
mod turns;
mod words;

use base::{InstructionIndex, Refusal};
pub use clearing::clear_words;
use instruction::Instruction;
pub use labelling::entry_for;
use labels::Label;
use parser::Reference;
pub use reading::read_line;
pub use turns::{do_line, name_in};

// The rules that a text is held to. Plain masks a field that exceeds its width, and lets a CJP to a register through, whose word
// decodes to JMP. Strict refuses an instruction exactly if a field exceeds its width (30), or if it is a CJP to a register (32).
#[derive(Clone, Copy)]
pub struct Rules {
    pub strict: bool,
}

// What a text that is accepted comes to: how many words, labels and references still open.
#[derive(Clone, Copy, Debug, PartialEq, Eq)]
pub struct Totals {
    pub words: usize,
    pub labels: usize,
    pub waiting: usize,
}

// Why a text is refused, and the line, from 1.
#[derive(Clone, Copy, Debug, PartialEq, Eq)]
pub struct Fault {
    pub refusal: Refusal,
    pub line: usize,
}

// Places are counted from the start of the line.
#[derive(Clone, Copy)]
pub enum Line {
    // empty, or a comment
    Skip,
    // where the name starts, and its length
    Label(usize, usize),
    Says(Instruction),
    // and where the name starts that it waits for, and its length
    Refers(Reference, usize, usize),
}

// How many words, labels and open references there are.
#[derive(Clone, Copy)]
pub struct Counts {
    pub words: InstructionIndex,
    pub labels: usize,
    pub waiting: usize,
}

// An entry of the label table: where it goes, and the label.
#[derive(Clone, Copy)]
pub struct Entry {
    pub slot: usize,
    pub label: Label,
}
