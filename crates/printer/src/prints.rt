// Printing into a lent buffer.
ghost use Rattle.std.specs.Prelude.{◌≡◌, length};
ghost use Rattle.base.specs.Told.{told};
ghost use Rattle.printer.specs.Print.{print_next_in, print_buffer_in, print_next, print_buffer, word_next, word_buffer};

use crate::texts::text;
use base::Refusal;
use instruction::{Edition, Instruction, decode};

// Writes the instruction's text into out from position at on, and answers the position after it; 19 where it doesn't fit, and then
// nothing is written. All other bytes of out stay.
#[tactic(auto, unfolding(crate::specs::Print::print_next_in, crate::specs::Print::print_buffer_in, crate::specs::Print::placed))]
pub fn print_in(e: Edition, i: Instruction, out: &mut [u8], at: usize) -> Result<usize, Refusal>
    ensures result_value { told result ≡ print_next_in e i (length out.old) at }
    ensures out_after { out.new ≡ print_buffer_in e i out.old at }
{
    let l = text(e, i);
    let end = at.checked_add(l.text.len()).ok_or(Refusal::NoRoom)?;
    if out.len() < end {
        return Err(Refusal::NoRoom);
    }
    out[at..end].copy_from_slice(l.text.as_slice());
    Ok(end)
}

// The same by the first edition, as a listing shows it.
pub fn print(i: Instruction, out: &mut [u8], at: usize) -> Result<usize, Refusal>
    ensures result_value { told result ≡ print_next i (length out.old) at }
    ensures out_after { out.new ≡ print_buffer i out.old at }
{
    print_in(Edition::First, i, out, at)
}

// Writes what a word says at the start of out: 4 to 6 where it says no instruction, then as `print` does.
#[tactic(auto, unfolding(crate::specs::Print::word_next, crate::specs::Print::word_buffer))]
pub fn print_word(w: u16, out: &mut [u8]) -> Result<usize, Refusal>
    ensures result_value { told result ≡ word_next w (length out.old) }
    ensures out_after { out.new ≡ word_buffer w out.old }
{
    print(decode(w)?, out, 0)
}
