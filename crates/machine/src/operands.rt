// Registers by name, and the bits of FLAGS. The eight numbers are lent, and no step stores one of them and then
// copies all: a wide read waits for a narrow store before it.
ghost use Rattle.std.specs.Prelude.{◌≡◌, ◌<◌};
ghost use Rattle.arithmetic.specs.Flags.{compared, failed};
ghost use Rattle.instruction.specs.declared.Register.TheVariants.{FLAGS};
ghost use Rattle.machine.specs.Registers.{get, put, operand, flag};
ghost use Rattle.machine.specs.Moves.{regs};

use instruction::{Operand, Register};

#[tactic(auto, unfolding(crate::specs::Registers::get))]
pub fn get(s: &[u16; 8], r: Register) -> u16
    ensures { result ≡ get (regs s.now) r }
{
    let i = u16::from(r) as usize;
    s[i]
}

// What is read once a register d has got v. That there are eight is known of an array by value.
pub fn get_after(s: [u16; 8], d: Register, v: u16, r: Register) -> u16
    ensures { result ≡ get (put (regs s) d v) r }
{
    let i = u16::from(r) as usize;
    if u16::from(d) as usize == i { v } else { s[i] }
}

#[tactic(auto, unfolding(crate::specs::Registers::operand))]
pub fn operand(s: &[u16; 8], o: Operand) -> u16
    ensures { result ≡ operand (regs s.now) o }
{
    match o {
        Operand::Reg(r) => get(s, r),
        Operand::Imm(v) => v,
    }
}

#[tactic(auto, unfolding(crate::specs::Registers::operand))]
pub fn operand_after(s: [u16; 8], d: Register, v: u16, o: Operand) -> u16
    ensures { result ≡ operand (put (regs s) d v) o }
{
    match o {
        Operand::Reg(r) => get_after(s, d, v, r),
        Operand::Imm(x) => x,
    }
}

// Whether a bit of FLAGS is set.
#[tactic(auto, unfolding(crate::specs::Registers::flag))]
pub fn flag(s: &[u16; 8], bit: usize) -> bool
    requires { bit < 16 }
    ensures { result ≡ flag (regs s.now) bit }
{
    arithmetic::flag(get(s, Register::FLAGS), bit)
}

// FLAGS with what a comparison leaves in bit 3.
pub fn mark(s: &[u16; 8], holds: bool) -> u16
    ensures { result ≡ compared (get (regs s.now) FLAGS) holds }
{
    arithmetic::compared(get(s, Register::FLAGS), holds)
}

// FLAGS with what a failed store leaves in bits 0 and 2.
pub fn fail(s: &[u16; 8]) -> u16
    ensures { result ≡ failed (get (regs s.now) FLAGS) }
{
    arithmetic::failed(get(s, Register::FLAGS))
}
