// The instructions: what a word says, and the word of an instruction.
#![tactic(auto)]

mod codes;
mod decoder;
mod editions;
mod encoder;
mod forms;
mod widths;

pub use codes::{arith_of, arithmetic_of, compare_of};
pub use decoder::{bit_at, byte_at, decode, jumps_always, operand_at, register_at};
pub use editions::decode_in;
pub use encoder::encode;
pub use forms::{decodable, sayable};
pub use widths::fits;

#[derive(Clone, Copy, Debug, PartialEq, Eq)]
pub enum Register {
    A,
    B,
    C,
    M,
    SP,
    PC,
    BP,
    // bit 0 halts the machine, bit 1 has a division store its remainder, bit 2 says that a store failed,
    // bit 3 that a comparison was true
    FLAGS,
}

// Where an instruction takes its number from.
#[derive(Clone, Copy, Debug, PartialEq, Eq)]
pub enum Operand {
    Reg(Register),
    Imm(u16),
}

// The four operators of Arith.
#[derive(Clone, Copy, Debug, PartialEq, Eq)]
pub enum ArithOp {
    Add,
    Sub,
    Mul,
    Div,
}

// The seven of ArithRegReg.
#[derive(Clone, Copy, Debug, PartialEq, Eq)]
pub enum ArithmeticOp {
    Add,
    Sub,
    Mul,
    Div,
    Mod,
    Exp,
    Sqrt,
}

#[derive(Clone, Copy, Debug, PartialEq, Eq)]
pub enum CompareOp {
    Eq,
    NotEq,
    Less,
    LessEq,
    Greater,
    GreaterEq,
}

#[derive(Clone, Copy, Debug, PartialEq, Eq)]
pub enum Instruction {
    Noop,
    // destination, source
    Mov(Register, Operand),
    // register, amount, left (else right), immediate
    MovShift(Register, u8, bool, u16),
    // destination and first number, second number, operator
    Arith(Register, Operand, ArithOp),
    // destination, first, second, operator
    ArithRegReg(Register, Register, Register, ArithmeticOp),
    // register, address register, store (else load), shift
    LdrStr(Register, Register, bool, u8),
    LdbStb(Register, Register, bool, u8),
    // register with the source's address, register with the target's
    Cpy(Register, Register),
    Jmp(Operand),
    CondJmp(Operand),
    // first number, second number, comparison
    Cmp(Register, Operand, CompareOp),
    // return (else call), address
    CallRet(bool, u16),
}

// Document 02 names a second edition of the instruction set. Machine and listing go by the first; source text for words goes by the
// second, because a line can say what the first edition's decoder does not: CJP to a register.
#[derive(Clone, Copy, Debug, PartialEq, Eq)]
pub enum Edition {
    First,
    Second,
}
