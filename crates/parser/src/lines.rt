// A whole line: its mnemonic, the number of its operands, and what they say.
ghost use Rattle.std.specs.Prelude.{◌≡◌};
ghost use Rattle.text.specs.Tokens.{tokens, token_at};
ghost use Rattle.parser.specs.Answers.{told};
ghost use Rattle.parser.specs.Parse.{takes, meaning, parse};

use crate::Parsed;
use crate::forms::{
    parse_arithmetic, parse_arithmetic_reg_reg, parse_comparision, parse_copy, parse_ldr_str,
    parse_mov, parse_mov_shift,
};
use crate::jumps::{parse_call, parse_jmp};
use base::Refusal;
use instruction::Instruction;
use mnemonics::Kind;

// May a mnemonic of this kind have so many operands?
#[tactic(auto, unfolding(crate::specs::Parse::takes))]
fn takes(kind: Kind, count: usize) -> bool
    ensures { result ≡ takes kind count }
{
    match kind {
        Kind::Dbg | Kind::Ret => true,
        Kind::Mov | Kind::Copy | Kind::Compare(_) => count == 2,
        Kind::MovShift(_) | Kind::ArithRegReg(_) => count == 3,
        Kind::Jump(_) | Kind::Call => count == 1,
        Kind::Arith(_) => count <= 2,
        Kind::Transfer(_, _) => count <= 3,
    }
}

// What a line of this kind says, its operands counted.
#[tactic(auto, unfolding(crate::specs::Parse::meaning))]
fn parse_kind(kind: Kind, line: &[u8]) -> Result<Parsed, Refusal>
    ensures { told result (token_at line.now 1) ≡ meaning kind (tokens line.now) }
{
    match kind {
        Kind::Dbg => Ok(Parsed::Is(Instruction::Noop)),
        Kind::Mov => parse_mov(line),
        Kind::MovShift(left) => parse_mov_shift(line, left),
        Kind::Copy => parse_copy(line),
        Kind::Arith(op) => parse_arithmetic(line, op),
        Kind::ArithRegReg(op) => parse_arithmetic_reg_reg(line, op),
        Kind::Transfer(byte, store) => parse_ldr_str(line, byte, store),
        Kind::Jump(conditional) => parse_jmp(line, conditional),
        Kind::Compare(op) => parse_comparision(line, op),
        Kind::Ret => Ok(Parsed::Is(Instruction::CallRet(true, 0))),
        Kind::Call => parse_call(line),
    }
}

pub fn parse(line: &[u8]) -> Result<Parsed, Refusal>
    ensures { told result (token_at line.now 1) ≡ parse (tokens line.now) }
{
    let count = text::count_tokens(line);
    if count == 0 {
        return Err(Refusal::InvalidFormat);
    }
    let kind = mnemonics::kind_of(text::token(line, 0)).ok_or(Refusal::InvalidInstruction)?;
    if !takes(kind, count - 1) {
        return Err(Refusal::InvalidInstruction);
    }
    parse_kind(kind, line)
}
