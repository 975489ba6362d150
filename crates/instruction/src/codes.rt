// The numbers of registers and operators, and back. A number past the last of its list is read as the last one:
// a register's three bits and an Arith operator's two cannot pass it, and the decoder tests the other two first. So reading a number
// never fails, and is no `TryFrom`.
ghost use Rattle.std.specs.Prelude.{◌≡◌, ◌<◌};
ghost use Rattle.instruction.specs.Codes.{
  register_of,
  arith_of,
  arithmetic_of,
  compare_of,
  register_code,
  arith_code,
  arithmetic_code,
  compare_code,
};

use crate::{ArithOp, ArithmeticOp, CompareOp, Register};

pub fn register_of(n: u16) -> Register
    ensures { result ≡ register_of n }
{
    match n {
        0 => Register::A,
        1 => Register::B,
        2 => Register::C,
        3 => Register::M,
        4 => Register::SP,
        5 => Register::PC,
        6 => Register::BP,
        _ => Register::FLAGS,
    }
}

pub fn arith_of(n: u16) -> ArithOp
    ensures { result ≡ arith_of n }
{
    match n {
        0 => ArithOp::Add,
        1 => ArithOp::Sub,
        2 => ArithOp::Mul,
        _ => ArithOp::Div,
    }
}

pub fn arithmetic_of(n: u16) -> ArithmeticOp
    ensures { result ≡ arithmetic_of n }
{
    match n {
        0 => ArithmeticOp::Add,
        1 => ArithmeticOp::Sub,
        2 => ArithmeticOp::Mul,
        3 => ArithmeticOp::Div,
        4 => ArithmeticOp::Mod,
        5 => ArithmeticOp::Exp,
        _ => ArithmeticOp::Sqrt,
    }
}

pub fn compare_of(n: u16) -> CompareOp
    ensures { result ≡ compare_of n }
{
    match n {
        0 => CompareOp::Eq,
        1 => CompareOp::NotEq,
        2 => CompareOp::Less,
        3 => CompareOp::LessEq,
        4 => CompareOp::Greater,
        _ => CompareOp::GreaterEq,
    }
}

// The bound is said beside the number, for callers that index eight registers.
impl From<Register> for u16 {
    ghost from_gives = { λ r n. (n ≡ register_code r) × (n < 8) };

    fn from(r: Register) -> u16 {
        r as u16
    }
}

impl From<ArithOp> for u16 {
    ghost from_gives = { λ k n. n ≡ arith_code k };

    fn from(k: ArithOp) -> u16 {
        k as u16
    }
}

impl From<ArithmeticOp> for u16 {
    ghost from_gives = { λ k n. n ≡ arithmetic_code k };

    fn from(k: ArithmeticOp) -> u16 {
        k as u16
    }
}

impl From<CompareOp> for u16 {
    ghost from_gives = { λ k n. n ≡ compare_code k };

    fn from(k: CompareOp) -> u16 {
        k as u16
    }
}
