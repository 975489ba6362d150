// Comparisons, of numbers without a sign.
ghost use Rattle.std.specs.Prelude.{◌≡◌};
ghost use Rattle.arithmetic.specs.Compares.{compare};

use instruction::CompareOp;

#[tactic(auto, unfolding(crate::specs::Compares::compare))]
pub fn compare(op: CompareOp, a: u16, b: u16) -> bool
    ensures { result ≡ compare op a b }
{
    match op {
        CompareOp::Eq => a == b,
        CompareOp::NotEq => a != b,
        CompareOp::Less => a < b,
        CompareOp::LessEq => a <= b,
        CompareOp::Greater => a > b,
        CompareOp::GreaterEq => a >= b,
    }
}
