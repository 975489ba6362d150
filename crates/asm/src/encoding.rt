// The word of an instruction, under the rules. What strict assembly refuses is said in `strict_word` alone.
ghost use Rattle.std.specs.Prelude.{◌≡◌};
ghost use Rattle.base.specs.Told.{told};
ghost use Rattle.asm.specs.Words.{strict_word, word_of};

use crate::Rules;
use base::Refusal;
use instruction::{Instruction, decodable, encode, fits};

#[tactic(auto, unfolding(crate::specs::Words::strict_word, crate::specs::Words::strict_order))]
fn strict_word(i: Instruction) -> Result<u16, Refusal>
    ensures { told result ≡ strict_word i }
{
    if !fits(i) {
        return Err(Refusal::FieldTooWide);
    }
    if !decodable(i) {
        return Err(Refusal::NotDecodable);
    }
    Ok(encode(i))
}

#[tactic(auto, unfolding(crate::specs::Words::word_of))]
pub fn word_of(rules: Rules, i: Instruction) -> Result<u16, Refusal>
    ensures { told result ≡ word_of rules.strict i }
{
    if rules.strict {
        strict_word(i)
    } else {
        Ok(encode(i))
    }
}
