// Immediate jumps and calls, and to where they go.
ghost use Rattle.std.specs.Prelude.{◌≡◌};
ghost use Rattle.source.specs.Source.{jump_to, aim_of, inside};

use instruction::{Instruction, Operand};
use parser::Reference;

// Which of the three it is, and the address that it goes to.
#[derive(Clone, Copy, Debug, PartialEq, Eq)]
pub struct Aim {
    pub reference: Reference,
    pub address: u16,
}

fn jump_to(reference: Reference, o: Operand) -> Option<Aim>
    ensures { result ≡ jump_to reference o }
{
    match o {
        Operand::Reg(_) => None,
        Operand::Imm(address) => Some(Aim { reference, address }),
    }
}

pub fn aim_of(i: Instruction) -> Option<Aim>
    ensures { result ≡ aim_of i }
{
    match i {
        Instruction::Jmp(o) => jump_to(Reference::Jmp, o),
        Instruction::CondJmp(o) => jump_to(Reference::CondJmp, o),
        Instruction::CallRet(false, address) => Some(Aim {
            reference: Reference::Call,
            address,
        }),
        _ => None,
    }
}

// An even address inside a program of n words.
#[tactic(auto, using(crate::proofs::AimLaws::half_inside), unfolding(crate::specs::Source::inside))]
pub fn inside(n: usize, a: u16) -> bool
    ensures { result ≡ inside n a }
{
    a % 2 == 0 && ((a / 2) as usize) < n
}
