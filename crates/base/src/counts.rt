// An instruction's number and its byte address are counted apart, so that neither is taken for the other.
ghost use Rattle.std.specs.Prelude.{◌≡◌};
ghost use Rattle.base.specs.Words.{doubled};

// The number of an instruction in its program, from 0.
#[derive(Clone, Copy, Debug, PartialEq, Eq)]
pub struct InstructionIndex(pub u16);

// The address of a byte; also the one just past the last instruction, which may be 65,536 or more.
#[derive(Clone, Copy, Debug, PartialEq, Eq)]
pub struct ByteAddress(pub u32);

// Each instruction is one word, two bytes.
impl From<InstructionIndex> for ByteAddress {
    ghost from_gives = { λ i a. a.0 ≡ doubled i.0 };

    fn from(i: InstructionIndex) -> ByteAddress {
        ByteAddress(2 * (i.0 as u32))
    }
}
