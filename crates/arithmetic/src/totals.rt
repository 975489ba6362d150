// Sums, differences, products, quotients, remainders and powers: the true result where a number of sixteen bits has room for it,
// else the refusal. Whether a sum, a product or a power fits is decided in one function.
ghost use Rattle.std.specs.Prelude.{◌≡◌};
ghost use Rattle.base.specs.Told.{told};
ghost use Rattle.arithmetic.specs.Totals.{fitted, sum, difference, product, quotient, remainder, power};

use base::Refusal;

#[tactic(auto, unfolding(crate::specs::Totals::fitted))]
fn fit(n: u32) -> Result<u16, Refusal>
    ensures { told result ≡ fitted n }
{
    if n <= 65535 {
        Ok(n as u16)
    } else {
        Err(Refusal::ArithOverflow)
    }
}

#[tactic(auto, unfolding(crate::specs::Totals::sum))]
pub fn sum(a: u16, b: u16) -> Result<u16, Refusal>
    ensures { told result ≡ sum a b }
{
    fit(u32::from(a) + u32::from(b))
}

#[tactic(auto, using(crate::proofs::Checked::checked_difference), unfolding(crate::specs::Totals::difference))]
pub fn difference(a: u16, b: u16) -> Result<u16, Refusal>
    ensures { told result ≡ difference a b }
{
    a.checked_sub(b).ok_or(Refusal::ArithOverflow)
}

#[tactic(auto, unfolding(crate::specs::Totals::product))]
pub fn product(a: u16, b: u16) -> Result<u16, Refusal>
    ensures { told result ≡ product a b }
{
    fit(u32::from(a) * u32::from(b))
}

#[tactic(auto, using(crate::proofs::Checked::checked_divided), unfolding(crate::specs::Totals::quotient))]
pub fn quotient(a: u16, b: u16) -> Result<u16, Refusal>
    ensures { told result ≡ quotient a b }
{
    a.checked_div(b).ok_or(Refusal::DivideByZero)
}

#[tactic(auto, using(crate::proofs::Checked::checked_divided), unfolding(crate::specs::Totals::remainder))]
pub fn remainder(a: u16, b: u16) -> Result<u16, Refusal>
    ensures { told result ≡ remainder a b }
{
    a.checked_rem(b).ok_or(Refusal::DivideByZero)
}

// A power for which 32 bits have no room stands as the last number of them, which does not fit either.
#[tactic(auto, using(crate::proofs::Checked::past_all), unfolding(crate::specs::Totals::power))]
pub fn power(a: u16, b: u16) -> Result<u16, Refusal>
    ensures { told result ≡ power a b }
{
    fit(u32::from(a).checked_pow(u32::from(b)).unwrap_or(u32::MAX))
}
