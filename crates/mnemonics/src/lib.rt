// The mnemonics: which of the parsers reads the operands of a line, by the line's first token.
#![tactic(auto)]

mod rows;
mod spelling;

use instruction::{ArithOp, ArithmeticOp, CompareOp};
pub use rows::Mnemonic;
pub use spelling::kind_of;

// How the operands of a mnemonic are read: which of the parsers, and what it is told.
#[derive(Clone, Copy)]
pub enum Kind {
    Dbg,
    Mov,
    // left (else right)
    MovShift(bool),
    Copy,
    Arith(ArithOp),
    ArithRegReg(ArithmeticOp),
    // byte (else word), store (else load)
    Transfer(bool, bool),
    // conditional
    Jump(bool),
    Compare(CompareOp),
    Ret,
    Call,
}
