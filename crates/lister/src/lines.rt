// The lines of a listing, each with its byte 10.
ghost use Rattle.std.specs.Prelude.{◌≤◌, length};
ghost use Rattle.lister.specs.Listing.{line, lines_from, totals, refusal};
ghost use Rattle.pen.specs.Written.{Writes};

use crate::decoding::put_word_text;
use base::{ByteAddress, InstructionIndex};
use pen::Pen;

// The address of an instruction, its word, and what that says.
#[tactic(auto, using(pen::proofs::PenLaws::joined), unfolding(crate::specs::Listing::line))]
fn line(p: &mut Pen, i: InstructionIndex, w: u16)
    ensures { Writes p.old p.new (line i.0 w) }
{
    let address = ByteAddress::from(i);
    p.hex(address.0);
    p.put(b' ');
    p.hex(w as u32);
    p.put(b' ');
    put_word_text(p, w);
    p.put(b'\n');
}

// A line for each word.
pub fn lines(p: &mut Pen, words: &[u16])
    requires { length words.now ≤ 32767 }
    ensures { Writes p.old p.new (lines_from 0 words.now) }
{
    for (i, w) in words.iter().enumerate() {
        line(p, InstructionIndex(i as u16), *w);
    }
}

#[tactic(auto, unfolding(crate::specs::Listing::totals))]
pub fn totals(p: &mut Pen, words: usize, waiting: usize)
    ensures { Writes p.old p.new (totals words waiting) }
{
    p.two_numbers(b"words ", words, b" open ", waiting);
}

#[tactic(auto, unfolding(crate::specs::Listing::refusal))]
pub fn refusal(p: &mut Pen, number: usize, place: usize)
    ensures { Writes p.old p.new (refusal number place) }
{
    p.two_numbers(b"refused ", number, b" line ", place);
}
