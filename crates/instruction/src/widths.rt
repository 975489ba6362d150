// Whether an instruction's numbers fit the widths that the table gives their fields.
ghost use Rattle.std.specs.Prelude.{◌&&◌, ◌≡◌, ◌<◌};
ghost use Rattle.instruction.specs.Fits.{within, operand_fits, fits};

use crate::{Instruction, Operand};
use fields::power_of_two;

fn has_width(v: u16, width: usize) -> bool
    requires { width < 16 }
    ensures { result ≡ within width v }
{
    v < power_of_two(width)
}

// A register fits wherever it stands.
fn operand_fits(o: Operand, width: usize) -> bool
    requires { width < 16 }
    ensures { result ≡ operand_fits width o }
{
    match o {
        Operand::Reg(_) => true,
        Operand::Imm(v) => has_width(v, width),
    }
}

// MovShift alone has two numbers.
fn shift_fits(amount: u8, v: u16) -> bool
    ensures { result ≡ within 3 amount && within 5 v }
{
    has_width(amount as u16, 3) && has_width(v, 5)
}

// Encoding masks a number that does not fit. Strict assembly asks this first, and refuses with 30.
pub fn fits(i: Instruction) -> bool
    ensures { result ≡ fits i }
{
    match i {
        Instruction::Noop => true,
        Instruction::Mov(_, o) => operand_fits(o, 8),
        Instruction::MovShift(_, amount, _, v) => shift_fits(amount, v),
        Instruction::Arith(_, o, _) => operand_fits(o, 6),
        Instruction::ArithRegReg(_, _, _, _) => true,
        Instruction::LdrStr(_, _, _, shift) => has_width(shift as u16, 5),
        Instruction::LdbStb(_, _, _, shift) => has_width(shift as u16, 5),
        Instruction::Cpy(_, _) => true,
        Instruction::Jmp(o) => operand_fits(o, 11),
        Instruction::CondJmp(o) => operand_fits(o, 11),
        Instruction::Cmp(_, o, _) => operand_fits(o, 5),
        Instruction::CallRet(_, address) => has_width(address, 11),
    }
}
