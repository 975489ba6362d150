// Registers by name, and operands that are registers.
ghost use Rattle.std.specs.Prelude.{◌≡◌};
ghost use Rattle.base.specs.Told.{told};
ghost use Rattle.text.specs.Tokens.{tokens};
ghost use Rattle.parser.specs.Operands.{nth, register, comma_register, three_registers};

use crate::names::register_names;
use crate::operands::operand_token;
use base::Refusal;
use instruction::Register;

// The register of this name, exactly.
pub fn register(token: &[u8]) -> Result<Register, Refusal>
    ensures { told result ≡ register token.now }
{
    let row = register_names()
        .iter()
        .find(|row| text::same(token, row.0.letters()));
    row.map(|row| row.1).ok_or(Refusal::InvalidRegister)
}

// Operand k as it stands: a register.
#[tactic(auto, using(crate::proofs::OperandLaws::nth_read))]
pub fn register_at(line: &[u8], k: usize) -> Result<Register, Refusal>
    ensures { told result ≡ nth k register (tokens line.now) }
{
    register(operand_token(line, k)?)
}

// Operand k without its final commas: a register.
#[tactic(auto, using(crate::proofs::OperandLaws::nth_read))]
pub fn comma_register_at(line: &[u8], k: usize) -> Result<Register, Refusal>
    ensures { told result ≡ nth k comma_register (tokens line.now) }
{
    register(text::drop_final(operand_token(line, k)?, b','))
}

// All three operands are registers.
#[tactic(auto, unfolding(crate::specs::Operands::three_registers))]
pub fn three_registers(line: &[u8]) -> Result<(Register, Register, Register), Refusal>
    ensures { told result ≡ three_registers (tokens line.now) }
{
    let destination = comma_register_at(line, 1)?;
    let first = comma_register_at(line, 2)?;
    let second = register_at(line, 3)?;
    Ok((destination, first, second))
}
