// Operands as they stand, and those that may be a register or an immediate. The mnemonic is token 0 of a line, so operand k is token k.
ghost use Rattle.std.specs.Prelude.{◌≡◌};
ghost use Rattle.base.specs.Told.{is, told};
ghost use Rattle.text.specs.Tokens.{tokens};
ghost use Rattle.parser.specs.Answers.{told_token};
ghost use Rattle.parser.specs.Operands.{nth, starts, operand, register_and_operand};

use crate::registers::{comma_register_at, register};
use base::Refusal;
use instruction::{Operand, Register};

// Does it start with the byte b?
pub fn starts(s: &[u8], b: u8) -> bool
    ensures { result ≡ starts b s.now }
{
    match s {
        [first, ..] => *first == b,
        [] => false,
    }
}

// Operand k as it stands, which a line may lack.
#[tactic(auto, using(crate::proofs::OperandLaws::token_laws))]
pub fn operand_token(line: &[u8], k: usize) -> Result<&[u8], Refusal>
    ensures { told_token result ≡ nth k is (tokens line.now) }
{
    let t = text::token(line, k);
    if t.is_empty() {
        return Err(Refusal::InvalidOperands);
    }
    Ok(t)
}

// An immediate where it starts with `#`, else a register.
#[tactic(auto, unfolding(crate::specs::Operands::operand))]
fn operand(token: &[u8]) -> Result<Operand, Refusal>
    ensures { told result ≡ operand token.now }
{
    if starts(token, b'#') {
        return Ok(Operand::Imm(text::parse_immediate(token)?));
    }
    Ok(Operand::Reg(register(token)?))
}

// Operand k as it stands: a register or an immediate.
#[tactic(auto, using(crate::proofs::OperandLaws::nth_read))]
fn operand_at(line: &[u8], k: usize) -> Result<Operand, Refusal>
    ensures { told result ≡ nth k operand (tokens line.now) }
{
    operand(operand_token(line, k)?)
}

// The first operand, a register, and the second, a register or an immediate.
#[tactic(auto, unfolding(crate::specs::Operands::register_and_operand))]
pub fn register_and_operand(line: &[u8]) -> Result<(Register, Operand), Refusal>
    ensures { told result ≡ register_and_operand (tokens line.now) }
{
    let register = comma_register_at(line, 1)?;
    let operand = operand_at(line, 2)?;
    Ok((register, operand))
}
