// Immediates.
ghost use Rattle.std.specs.Prelude.{◌≡◌, ◌≤◌};
ghost use Rattle.base.specs.Told.{told};
ghost use Rattle.text.specs.Immediates.{digit_in, digits, after_plus, value_of, immediate};

use base::Refusal;

// The digit that a byte is in this base, in either case.
#[tactic(auto, using(crate::proofs::ImmediateLaws::digit_is))]
fn digit(b: u8, base: u32) -> Option<u32>
    requires { (2 ≤ base) × (base ≤ 16) }
    ensures { result ≡ digit_in base b }
{
    char::from(b).to_digit(base)
}

// The number that the digits of `s` are, at most 65,535.
#[tactic(auto, using(crate::proofs::ImmediateLaws::digit_laws))]
fn number(s: &[u8], base: u32) -> Result<u16, Refusal>
    requires { (2 ≤ base) × (base ≤ 16) }
    ensures { told result ≡ digits base s.now }
{
    if s.is_empty() {
        return Err(Refusal::InvalidImmediate);
    }
    let mut value = 0;
    for b in s {
        let digit = digit(*b, base).ok_or(Refusal::InvalidImmediate)?;
        value = value * base + digit;
        if 65535 < value {
            return Err(Refusal::InvalidImmediate);
        }
    }
    Ok(value as u16)
}

// Without one `+` at the front.
fn after_plus(s: &[u8]) -> &[u8]
    ensures { result.now ≡ after_plus s.now }
{
    match s {
        [b'+', digits @ ..] => digits,
        _ => s,
    }
}

// What stands after the `#`.
fn value(s: &[u8]) -> Result<u16, Refusal>
    ensures { told result ≡ value_of s.now }
{
    match s {
        [b'0', b'x', hex @ ..] => number(after_plus(hex), 16),
        _ => number(after_plus(s), 10),
    }
}

// The number that a token is, at most 65,535.
#[tactic(auto, unfolding(crate::specs::Immediates::immediate))]
pub fn parse_immediate(token: &[u8]) -> Result<u16, Refusal>
    ensures { told result ≡ immediate token.now }
{
    match token {
        [b'#', rest @ ..] => value(rest),
        _ => Err(Refusal::InvalidImmediate),
    }
}
