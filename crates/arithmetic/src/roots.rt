// The square root, rounded down.
ghost use Rattle.std.specs.Prelude.{◌≡◌};
ghost use Rattle.arithmetic.specs.Roots.{root};

#[tactic(auto, using(crate::proofs::Laws::root_found))]
pub fn root(v: u16) -> u16
    ensures { result ≡ root v }
{
    v.isqrt()
}
