// The words so far, in the first places of the output.
ghost use Rattle.std.specs.Prelude.{◌≡◌, ◌≤◌, IfOk, length, take, set};
ghost use Rattle.asm.specs.Words.{add_word, add_instruction};
ghost use Rattle.asm.specs.Views.{added};

use crate::Rules;
use crate::encoding::word_of;
use base::{InstructionIndex, Refusal};
use instruction::Instruction;

// The word of an instruction; past the end of the output nothing. By an index, since `get_mut` says nothing of what the slice ends as.
pub fn put_word(words: &mut [u16], at: InstructionIndex, w: u16)
    ensures { words.new ≡ set words.old at.0 w }
{
    let i = at.0 as usize;
    if i < words.len() {
        words[i] = w;
    }
}

// One word more, as instruction `at`. The number of the next instruction.
pub fn add_word(
    words: &mut [u16],
    at: InstructionIndex,
    w: u16,
) -> Result<InstructionIndex, Refusal>
    requires { at.0 ≤ length words.old }
    ensures words_after { added result words.new ≡ add_word (length words.old) w (take at.0 words.old) }
    ensures result_in_bounds { IfOk result (λ n. (n.0 ≤ length words.old) × (n.0 ≤ 32767)) }
{
    let i = at.0 as usize;
    if i < words.len() && at.0 < 32767 {
        words[i] = w;
        return Ok(InstructionIndex(at.0 + 1));
    }
    Err(Refusal::ProgramFull)
}

// The word of an instruction more: 30, 32, then 29.
#[tactic(auto, unfolding(crate::specs::Words::add_instruction))]
pub fn add_instruction(
    rules: Rules,
    words: &mut [u16],
    at: InstructionIndex,
    i: Instruction,
) -> Result<InstructionIndex, Refusal>
    requires { at.0 ≤ length words.old }
    ensures words_after { added result words.new ≡ add_instruction rules.strict (length words.old) i (take at.0 words.old) }
    ensures result_in_bounds { IfOk result (λ n. (n.0 ≤ length words.old) × (n.0 ≤ 32767)) }
{
    let w = word_of(rules, i)?;
    add_word(words, at, w)
}
