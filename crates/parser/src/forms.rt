// The operands of each mnemonic, by the names of the Rust's parsers. How many there may be is tested before.
ghost use Rattle.std.specs.Prelude.{◌≡◌};
ghost use Rattle.text.specs.Tokens.{tokens, token_at};
ghost use Rattle.parser.specs.Answers.{told};
ghost use Rattle.parser.specs.Parse.{mov, mov_shift, copy, arith, arith_reg_reg, compare, transfer, transferred};

use crate::Parsed;
use crate::brackets::{address_at, shift_operands};
use crate::operands::register_and_operand;
use crate::registers::{comma_register_at, register_at, three_registers};
use base::Refusal;
use instruction::{ArithOp, ArithmeticOp, CompareOp, Instruction, Register};

#[tactic(auto, unfolding(crate::specs::Parse::mov))]
pub fn parse_mov(line: &[u8]) -> Result<Parsed, Refusal>
    ensures { told result (token_at line.now 1) ≡ mov (tokens line.now) }
{
    let (register, operand) = register_and_operand(line)?;
    Ok(Parsed::Is(Instruction::Mov(register, operand)))
}

#[tactic(auto, unfolding(crate::specs::Parse::arith))]
pub fn parse_arithmetic(line: &[u8], op: ArithOp) -> Result<Parsed, Refusal>
    ensures { told result (token_at line.now 1) ≡ arith op (tokens line.now) }
{
    let (register, operand) = register_and_operand(line)?;
    Ok(Parsed::Is(Instruction::Arith(register, operand, op)))
}

#[tactic(auto, unfolding(crate::specs::Parse::compare))]
pub fn parse_comparision(line: &[u8], op: CompareOp) -> Result<Parsed, Refusal>
    ensures { told result (token_at line.now 1) ≡ compare op (tokens line.now) }
{
    let (register, operand) = register_and_operand(line)?;
    Ok(Parsed::Is(Instruction::Cmp(register, operand, op)))
}

#[tactic(auto, unfolding(crate::specs::Parse::copy))]
pub fn parse_copy(line: &[u8]) -> Result<Parsed, Refusal>
    ensures { told result (token_at line.now 1) ≡ copy (tokens line.now) }
{
    let from = comma_register_at(line, 1)?;
    let to = register_at(line, 2)?;
    Ok(Parsed::Is(Instruction::Cpy(from, to)))
}

#[tactic(auto, unfolding(crate::specs::Parse::arith_reg_reg))]
pub fn parse_arithmetic_reg_reg(line: &[u8], op: ArithmeticOp) -> Result<Parsed, Refusal>
    ensures { told result (token_at line.now 1) ≡ arith_reg_reg op (tokens line.now) }
{
    let (destination, first, second) = three_registers(line)?;
    Ok(Parsed::Is(Instruction::ArithRegReg(destination, first, second, op)))
}

#[tactic(auto, unfolding(crate::specs::Parse::mov_shift))]
pub fn parse_mov_shift(line: &[u8], left: bool) -> Result<Parsed, Refusal>
    ensures { told result (token_at line.now 1) ≡ mov_shift left (tokens line.now) }
{
    let s = shift_operands(line)?;
    Ok(Parsed::Is(Instruction::MovShift(s.register, s.amount, left, s.immediate)))
}

fn transferred(byte: bool, r: Register, base: Register, store: bool, shift: u8) -> Instruction
    ensures { result ≡ transferred byte r base store shift }
{
    if byte {
        Instruction::LdbStb(r, base, store, shift)
    } else {
        Instruction::LdrStr(r, base, store, shift)
    }
}

#[tactic(auto, unfolding(crate::specs::Parse::transfer))]
pub fn parse_ldr_str(line: &[u8], byte: bool, store: bool) -> Result<Parsed, Refusal>
    ensures { told result (token_at line.now 1) ≡ transfer byte store (tokens line.now) }
{
    let register = comma_register_at(line, 1)?;
    let address = address_at(line)?;
    Ok(Parsed::Is(transferred(byte, register, address.base, store, address.shift)))
}
