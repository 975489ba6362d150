// Operands in brackets: the two numbers of MSL and MSR, and the address of LDR to STB.
ghost use Rattle.std.specs.Prelude.{◌≡◌};
ghost use Rattle.base.specs.Numbers.{number_of};
ghost use Rattle.base.specs.Told.{told};
ghost use Rattle.text.specs.Tokens.{tokens};
ghost use Rattle.parser.specs.Operands.{nth, opened_immediate, eight_bits, closed_byte, shift_operands, bracketed, address};

use crate::operands::{operand_token, starts};
use crate::registers::{comma_register_at, register};
use base::Refusal;
use instruction::Register;

// The operands of MSL and MSR.
#[derive(Clone, Copy)]
pub struct Shift {
    pub register: Register,
    pub immediate: u16,
    pub amount: u8,
}

// A register with an address, and the shift that is added to it.
#[derive(Clone, Copy)]
pub struct Address {
    pub base: Register,
    pub shift: u8,
}

// Operand 2 without its leading `[`: an immediate.
#[tactic(auto, using(crate::proofs::OperandLaws::nth_read))]
fn opened_immediate(line: &[u8]) -> Result<u16, Refusal>
    ensures { told result ≡ nth 2 opened_immediate (tokens line.now) }
{
    text::parse_immediate(text::drop_leading(operand_token(line, 2)?, b'['))
}

// A number of at most 255, or else this refusal.
fn eight_bits(n: u16, over: Refusal) -> Result<u8, Refusal>
    ensures { told result ≡ eight_bits (number_of over) n }
{
    u8::try_from(n).map_err(|_| over)
}

// Operand 3 without its final `]`: an immediate of eight bits, `over` where it has more.
#[tactic(auto, using(crate::proofs::OperandLaws::nth_read))]
fn closed_byte(line: &[u8], over: Refusal) -> Result<u8, Refusal>
    ensures { told result ≡ nth 3 (closed_byte (number_of over)) (tokens line.now) }
{
    let n = text::parse_immediate(text::drop_final(operand_token(line, 3)?, b']'))?;
    eight_bits(n, over)
}

// The immediate stands before the amount: no other function knows their order.
#[tactic(auto, unfolding(crate::specs::Operands::shift_operands))]
pub fn shift_operands(line: &[u8]) -> Result<Shift, Refusal>
    ensures { told result ≡ shift_operands (tokens line.now) }
{
    let register = comma_register_at(line, 1)?;
    let immediate = opened_immediate(line)?;
    let amount = closed_byte(line, Refusal::InvalidInstruction)?;
    Ok(Shift {
        register,
        immediate,
        amount,
    })
}

// The address of a register and of operand 3, its shift.
#[tactic(auto, unfolding(crate::specs::Operands::bracketed))]
fn bracketed(line: &[u8], register: Result<Register, Refusal>) -> Result<Address, Refusal>
    ensures { told result ≡ bracketed (told register) (tokens line.now) }
{
    let base = register?;
    let shift = closed_byte(line, Refusal::InvalidImmediate)?;
    Ok(Address { base, shift })
}

// The address that operand 2 starts. Without a `[` it is all of it.
#[tactic(auto, using(crate::proofs::OperandLaws::nth_read), unfolding(crate::specs::Operands::address))]
pub fn address_at(line: &[u8]) -> Result<Address, Refusal>
    ensures { told result ≡ nth 2 (address (tokens line.now)) (tokens line.now) }
{
    let t = operand_token(line, 2)?;
    if starts(t, b'[') {
        return bracketed(line, register(text::drop_leading(t, b'[')));
    }
    let base = register(t)?;
    Ok(Address { base, shift: 0 })
}
