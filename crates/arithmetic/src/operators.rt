// The operators of the two arithmetic instructions.
ghost use Rattle.std.specs.Prelude.{◌≡◌};
ghost use Rattle.base.specs.Told.{told};
ghost use Rattle.arithmetic.specs.Operators.{arith_result, arithmetic_result};

use crate::roots::root;
use crate::totals::{difference, power, product, quotient, remainder, sum};
use base::Refusal;
use instruction::{ArithOp, ArithmeticOp};

// Arith's.
#[tactic(auto, unfolding(crate::specs::Operators::arith_result))]
pub fn arith(op: ArithOp, a: u16, b: u16) -> Result<u16, Refusal>
    ensures { told result ≡ arith_result op a b }
{
    match op {
        ArithOp::Add => sum(a, b),
        ArithOp::Sub => difference(a, b),
        ArithOp::Mul => product(a, b),
        ArithOp::Div => quotient(a, b),
    }
}

// ArithRegReg's. A root is of the first number, and ignores the second.
#[tactic(auto, unfolding(crate::specs::Operators::arithmetic_result))]
pub fn arithmetic(op: ArithmeticOp, a: u16, b: u16) -> Result<u16, Refusal>
    ensures { told result ≡ arithmetic_result op a b }
{
    match op {
        ArithmeticOp::Add => sum(a, b),
        ArithmeticOp::Sub => difference(a, b),
        ArithmeticOp::Mul => product(a, b),
        ArithmeticOp::Div => quotient(a, b),
        ArithmeticOp::Mod => remainder(a, b),
        ArithmeticOp::Exp => power(a, b),
        ArithmeticOp::Sqrt => Ok(root(a)),
    }
}
