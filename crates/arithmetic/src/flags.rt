// The bits of FLAGS.
ghost use Rattle.std.specs.Prelude.{◌≡◌, ◌<◌};
ghost use Rattle.arithmetic.specs.Flags.{flag, compared, failed};

use instruction::bit_at;

// Whether a bit is set.
#[tactic(auto, unfolding(crate::specs::Flags::flag))]
pub fn flag(flags: u16, bit: usize) -> bool
    requires { bit < 16 }
    ensures { result ≡ flag flags bit }
{
    bit_at(flags, bit)
}

// What a comparison leaves: bit 3 set if it was true, else cleared.
#[tactic(auto, unfolding(crate::specs::Flags::compared))]
pub fn compared(flags: u16, yes: bool) -> u16
    ensures { result ≡ compared flags yes }
{
    if yes { flags | 8 } else { flags & !8 }
}

// What a failed store leaves: bits 0 and 2 set.
#[tactic(auto, unfolding(crate::specs::Flags::failed))]
pub fn failed(flags: u16) -> u16
    ensures { result ≡ failed flags }
{
    flags | 5
}
