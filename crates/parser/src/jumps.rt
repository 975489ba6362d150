// JMP, CJP and CALL: an address, or a reference to the label of the operand's name, which is the operand as it stands.
ghost use Rattle.std.specs.Prelude.{◌≡◌};
ghost use Rattle.text.specs.Tokens.{tokens, token_at};
ghost use Rattle.parser.specs.Answers.{told};
ghost use Rattle.parser.specs.Operands.{nth};
ghost use Rattle.parser.specs.Parse.{jumping, waiting, target, callee};

use crate::operands::{operand_token, starts};
use crate::registers::register;
use crate::{Parsed, Reference};
use base::Refusal;
use instruction::{Instruction, Operand};

fn jumping(conditional: bool, to: Operand) -> Instruction
    ensures { result ≡ jumping conditional to }
{
    if conditional {
        Instruction::CondJmp(to)
    } else {
        Instruction::Jmp(to)
    }
}

fn waiting(conditional: bool) -> Reference
    ensures { result ≡ waiting conditional }
{
    if conditional {
        Reference::CondJmp
    } else {
        Reference::Jmp
    }
}

#[tactic(auto, using(crate::proofs::OperandLaws::nth_read), unfolding(crate::specs::Parse::target))]
pub fn parse_jmp(line: &[u8], conditional: bool) -> Result<Parsed, Refusal>
    ensures { told result (token_at line.now 1) ≡ nth 1 (target conditional) (tokens line.now) }
{
    let t = operand_token(line, 1)?;
    if starts(t, b'#') {
        let address = text::parse_immediate(t)?;
        return Ok(Parsed::Is(jumping(conditional, Operand::Imm(address))));
    }
    match register(t) {
        Ok(r) => Ok(Parsed::Is(jumping(conditional, Operand::Reg(r)))),
        Err(_) => Ok(Parsed::Refers(waiting(conditional))),
    }
}

#[tactic(auto, using(crate::proofs::OperandLaws::nth_read), unfolding(crate::specs::Parse::callee))]
pub fn parse_call(line: &[u8]) -> Result<Parsed, Refusal>
    ensures { told result (token_at line.now 1) ≡ nth 1 callee (tokens line.now) }
{
    let t = operand_token(line, 1)?;
    if starts(t, b'#') {
        let address = text::parse_immediate(t)?;
        return Ok(Parsed::Is(Instruction::CallRet(false, address)));
    }
    Ok(Parsed::Refers(Reference::Call))
}
