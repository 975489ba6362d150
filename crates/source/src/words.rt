// What a word says, and whether it has a text.
ghost use Rattle.std.specs.Prelude.{◌≡◌, not};
ghost use Rattle.std.specs.List.{position};
ghost use Rattle.base.specs.Told.{is};
ghost use Rattle.source.specs.Words.{instruction_of, is_said, has_text};

use instruction::{Edition, Instruction, decode_in, encode, sayable};

pub fn instruction_of(w: u16) -> Instruction
    ensures { result ≡ instruction_of w }
{
    decode_in(Edition::Second, w).unwrap_or(Instruction::Noop)
}

// Is it the very word of the instruction, and does a line say that?
fn is_said(w: u16, i: Instruction) -> bool
    ensures { result ≡ is_said w (is i) }
{
    encode(i) == w && sayable(i)
}

#[tactic(auto, using(crate::proofs::AskLaws::said), unfolding(crate::specs::Words::has_text))]
fn has_text(w: u16) -> bool
    ensures { result ≡ has_text w }
{
    decode_in(Edition::Second, w).is_ok_and(|i| is_said(w, i))
}

// The index of the lowest word without a text, where there is one.
pub fn lowest(words: &[u16]) -> Option<usize>
    ensures { result ≡ position (λ w. not (has_text w)) words.now }
{
    words.iter().position(|w| !has_text(*w))
}
