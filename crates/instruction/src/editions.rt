// What a word says by each edition of the instruction set.
ghost use Rattle.std.specs.Prelude.{◌≡◌};
ghost use Rattle.base.specs.Told.{told};
ghost use Rattle.instruction.specs.Editions.{decode_in};
ghost use Rattle.instruction.specs.declared.Edition.TheVariants.{Second};

use crate::decoder::{decode, operand_at};
use crate::{Edition, Instruction};
use base::Refusal;
use fields::field;

// 5 is a CondJmp in both modes, so that every instruction whose fields fit decodes back.
#[tactic(auto, unfolding(crate::specs::Editions::decode_in))]
fn decode_second(w: u16) -> Result<Instruction, Refusal>
    ensures { told result ≡ decode_in Second w }
{
    if field(w, 0, 4) == 5 {
        return Ok(Instruction::CondJmp(operand_at(w, 4, 11)));
    }
    decode(w)
}

#[tactic(auto, unfolding(crate::specs::Editions::decode_in))]
pub fn decode_in(e: Edition, w: u16) -> Result<Instruction, Refusal>
    ensures { told result ≡ decode_in e w }
{
    match e {
        Edition::First => decode(w),
        Edition::Second => decode_second(w),
    }
}
