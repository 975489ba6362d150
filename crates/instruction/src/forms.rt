// Whether decoding ever answers with an instruction, and whether a line says it.
ghost use Rattle.std.specs.Prelude.{◌≡◌};
ghost use Rattle.instruction.specs.Fits.{decodable, sayable};

use crate::Instruction;
use crate::decoder::jumps_always;

// Strict assembly asks this second, and refuses with 32.
pub fn decodable(i: Instruction) -> bool
    ensures { result ≡ decodable i }
{
    match i {
        Instruction::CondJmp(o) => !jumps_always(o),
        _ => true,
    }
}

// Text for words asks this, and refuses with 33.
pub fn sayable(i: Instruction) -> bool
    ensures { result ≡ sayable i }
{
    match i {
        Instruction::CallRet(ret, address) => !ret || address == 0,
        _ => true,
    }
}
