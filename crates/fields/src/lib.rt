// Fields of a sixteen-bit word, by position and width. They are taken and placed by quotients, remainders and
// products with powers of 2, so that the code says what the definitions say.
#![tactic(auto)]

ghost use Rattle.std.specs.Prelude.{◌≡◌, ◌+◌, ◌<◌, ◌≤◌, ◌^◌};
ghost use Rattle.fields.specs.Fields.{field_of, place_of};

pub fn power_of_two(k: usize) -> u16
    requires { k < 16 }
    ensures { result ≡ 2 ^ k }
{
    1 << k
}

// The `width` bits of `w` from bit `at` on.
pub fn field(w: u16, at: usize, width: usize) -> u16
    requires { (at < 16) × (width < 16) }
    ensures { result ≡ field_of w at width }
{
    w / power_of_two(at) % power_of_two(width)
}

// `v`, masked to `width` bits, at bit `at`.
pub fn place(v: u16, at: usize, width: usize) -> u16
    requires { (at < 16) × (width < 16) × (at + width ≤ 16) }
    ensures { result ≡ place_of v at width }
{
    v % power_of_two(width) * power_of_two(at)
}
