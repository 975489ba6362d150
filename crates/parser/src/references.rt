// References and the instructions they become.
ghost use Rattle.std.specs.Prelude.{◌≡◌};
ghost use Rattle.parser.specs.References.{resolved};

use crate::Reference;
use instruction::{Instruction, Operand};

// The instruction that a reference is, once the label's address is known.
pub fn resolved(reference: Reference, address: u16) -> Instruction
    ensures { result ≡ resolved reference address }
{
    match reference {
        Reference::Jmp => Instruction::Jmp(Operand::Imm(address)),
        Reference::CondJmp => Instruction::CondJmp(Operand::Imm(address)),
        Reference::Call => Instruction::CallRet(false, address),
    }
}
