// What a word says. The low four bits pick an arm of the table; each function below is one arm, or one kind of field.
// The kinds of field are public for the machine, which acts on a word without making an Instruction of it.
ghost use Rattle.std.specs.Prelude.{◌≡◌, ◌<◌, ◌≤◌};
ghost use Rattle.fields.specs.Fields.{field_of};
ghost use Rattle.base.specs.Told.{is, told};
ghost use Rattle.instruction.specs.Decode.{register_at, bit_at, operand_at, jumps_always, arm, decode};

use crate::codes::{arith_of, arithmetic_of, compare_of, register_of};
use crate::{Instruction, Operand, Register};
use base::Refusal;
use fields::field;

// The register in the three bits from `at` on.
pub fn register_at(w: u16, at: usize) -> Register
    requires { at < 16 }
    ensures { result ≡ register_at w at }
{
    register_of(field(w, at, 3))
}

pub fn bit_at(w: u16, at: usize) -> bool
    requires { at < 16 }
    ensures { result ≡ bit_at w at }
{
    field(w, at, 1) == 1
}

// A field of at most eight bits, which a byte holds.
pub fn byte_at(w: u16, at: usize, width: usize) -> u8
    requires { (at < 16) × (width ≤ 8) }
    ensures { result ≡ field_of w at width }
{
    field(w, at, width) as u8
}

// The operand whose mode bit is at `at`: a register in the three bits after it, or an immediate in the `width` bits
// after it.
pub fn operand_at(w: u16, at: usize, width: usize) -> Operand
    requires { (at < 15) × (width < 16) }
    ensures { result ≡ operand_at w at width }
{
    if bit_at(w, at) {
        Operand::Reg(register_at(w, at + 1))
    } else {
        Operand::Imm(field(w, at + 1, width))
    }
}

#[tactic(auto, unfolding(crate::specs::Decode::arm, crate::specs::Decode::arms))]
fn mov(w: u16) -> Instruction
    ensures { is result ≡ arm w 1 }
{
    Instruction::Mov(register_at(w, 4), operand_at(w, 7, 8))
}

#[tactic(auto, unfolding(crate::specs::Decode::arm, crate::specs::Decode::arms))]
fn mov_shift(w: u16) -> Instruction
    ensures { is result ≡ arm w 2 }
{
    Instruction::MovShift(
        register_at(w, 4),
        byte_at(w, 7, 3),
        bit_at(w, 10),
        field(w, 11, 5),
    )
}

#[tactic(auto, unfolding(crate::specs::Decode::arm, crate::specs::Decode::arms))]
fn arith(w: u16) -> Instruction
    ensures { is result ≡ arm w 3 }
{
    Instruction::Arith(
        register_at(w, 4),
        operand_at(w, 9, 6),
        arith_of(field(w, 7, 2)),
    )
}

// LdrStr and LdbStb have the same fields.
fn transfer(w: u16) -> (Register, Register, bool, u8)
    ensures { result ≡ (register_at w 4, register_at w 7, bit_at w 10, field_of w 11 5) }
{
    (
        register_at(w, 4),
        register_at(w, 7),
        bit_at(w, 10),
        byte_at(w, 11, 5),
    )
}

#[tactic(auto, unfolding(crate::specs::Decode::arm, crate::specs::Decode::arms))]
fn ldr_str(w: u16) -> Instruction
    ensures { is result ≡ arm w 4 }
{
    let (r, a, store, shift) = transfer(w);
    Instruction::LdrStr(r, a, store, shift)
}

#[tactic(auto, unfolding(crate::specs::Decode::arm, crate::specs::Decode::arms))]
fn ldb_stb(w: u16) -> Instruction
    ensures { is result ≡ arm w 8 }
{
    let (r, a, store, shift) = transfer(w);
    Instruction::LdbStb(r, a, store, shift)
}

// 5 in register mode is a Jmp, as document 01 has it: no word says a CondJmp to a register. Only this function knows.
pub fn jumps_always(o: Operand) -> bool
    ensures { result ≡ jumps_always o }
{
    matches!(o, Operand::Reg(_))
}

#[tactic(auto, unfolding(crate::specs::Decode::arm, crate::specs::Decode::arms))]
fn cond_jmp(w: u16) -> Instruction
    ensures { is result ≡ arm w 5 }
{
    let o = operand_at(w, 4, 11);
    if jumps_always(o) {
        Instruction::Jmp(o)
    } else {
        Instruction::CondJmp(o)
    }
}

#[tactic(auto, unfolding(crate::specs::Decode::arm, crate::specs::Decode::arms))]
fn jmp(w: u16) -> Instruction
    ensures { is result ≡ arm w 6 }
{
    Instruction::Jmp(operand_at(w, 4, 11))
}

// Six comparisons have a number; 6 and 7 are none.
#[tactic(auto, unfolding(crate::specs::Decode::arm, crate::specs::Decode::arms))]
fn cmp(w: u16) -> Result<Instruction, Refusal>
    ensures { told result ≡ arm w 7 }
{
    let k = field(w, 7, 3);
    if k < 6 {
        Ok(Instruction::Cmp(register_at(w, 4), operand_at(w, 10, 5), compare_of(k)))
    } else {
        Err(Refusal::BadCompare)
    }
}

#[tactic(auto, unfolding(crate::specs::Decode::arm, crate::specs::Decode::arms))]
fn cpy(w: u16) -> Instruction
    ensures { is result ≡ arm w 9 }
{
    Instruction::Cpy(register_at(w, 4), register_at(w, 7))
}

// Seven operators have a number; 7 is none.
#[tactic(auto, unfolding(crate::specs::Decode::arm, crate::specs::Decode::arms))]
fn arith_reg_reg(w: u16) -> Result<Instruction, Refusal>
    ensures { told result ≡ arm w 10 }
{
    let k = field(w, 7, 3);
    if k < 7 {
        Ok(Instruction::ArithRegReg(
            register_at(w, 4),
            register_at(w, 10),
            register_at(w, 13),
            arithmetic_of(k),
        ))
    } else {
        Err(Refusal::BadArith)
    }
}

#[tactic(auto, unfolding(crate::specs::Decode::arm, crate::specs::Decode::arms))]
fn call_ret(w: u16) -> Instruction
    ensures { is result ≡ arm w 11 }
{
    Instruction::CallRet(bit_at(w, 4), field(w, 5, 11))
}

#[tactic(auto, unfolding(crate::specs::Decode::decode, crate::specs::Decode::arm, crate::specs::Decode::arms))]
pub fn decode(w: u16) -> Result<Instruction, Refusal>
    ensures { told result ≡ decode w }
{
    match field(w, 0, 4) {
        0 => Ok(Instruction::Noop),
        1 => Ok(mov(w)),
        2 => Ok(mov_shift(w)),
        3 => Ok(arith(w)),
        4 => Ok(ldr_str(w)),
        5 => Ok(cond_jmp(w)),
        6 => Ok(jmp(w)),
        7 => cmp(w),
        8 => Ok(ldb_stb(w)),
        9 => Ok(cpy(w)),
        10 => arith_reg_reg(w),
        11 => Ok(call_ret(w)),
        _ => Err(Refusal::BadOpcode),
    }
}
