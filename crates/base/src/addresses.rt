// The three sums of an address, each in a function of its own: an address, or none where it would lie past the last one.
ghost use Rattle.std.specs.Prelude.{◌≡◌};
ghost use Rattle.base.specs.Addresses.{second_address, base_plus_shift, raised_pc};

// The address of a word's high byte, where its low byte is at a.
#[tactic(auto, using(crate::proofs::AddressLaws::checked))]
pub fn second_address(a: u16) -> Option<u16>
    ensures { result ≡ second_address a }
{
    a.checked_add(1)
}

// The address that a load or a store goes to.
#[tactic(auto, using(crate::proofs::AddressLaws::checked))]
pub fn base_plus_shift(base: u16, shift: u8) -> Option<u16>
    ensures { result ≡ base_plus_shift base shift }
{
    base.checked_add(shift as u16)
}

// PC, once the instruction at it is done.
#[tactic(auto, using(crate::proofs::AddressLaws::checked))]
pub fn raised_pc(pc: u16) -> Option<u16>
    ensures { result ≡ raised_pc pc }
{
    pc.checked_add(2)
}
