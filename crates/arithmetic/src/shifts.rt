// The shift of MovShift.
ghost use Rattle.std.specs.Prelude.{◌≡◌};
ghost use Rattle.arithmetic.specs.Shifts.{shifted, moved};

// From 16 on, every bit is lost.
#[tactic(auto, using(crate::proofs::Lost::shifted_left, crate::proofs::Lost::shifted_right))]
fn shifted(v: u16, amount: u8, left: bool) -> u16
    ensures { result ≡ shifted v amount left }
{
    if left {
        v.checked_shl(amount as u32).unwrap_or(0)
    } else {
        v.checked_shr(amount as u32).unwrap_or(0)
    }
}

// The number shifted, lost bits dropped, and the bits of the immediate set in it.
#[tactic(auto, unfolding(crate::specs::Shifts::moved))]
pub fn moved(v: u16, amount: u8, left: bool, imm: u16) -> u16
    ensures { result ≡ moved v amount left imm }
{
    shifted(v, amount, left) | imm
}
