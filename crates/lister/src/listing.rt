// The listing of a text into a lent buffer.
ghost use Rattle.std.specs.Prelude.{◌≡◌, ◌≤◌, length};
ghost use Rattle.base.specs.Told.{told};
ghost use Rattle.lister.specs.Listing.{outcome, listing, listed, listed_buffer};
ghost use Rattle.asm.specs.Views.{word_count};
ghost use Rattle.lister.specs.Parts.{Tells, shown_of};
ghost use Rattle.pen.specs.Pen.{pen, wrote};
ghost use Rattle.pen.specs.Written.{Writes};

use crate::lines::{lines, refusal, totals};
use asm::{Fault, Rules, Totals};
use assembler::assemble_words;
use base::Refusal;
use pen::Pen;

// Assembles strictly, with 1,024 label entries; 19 comes before anything is read.
fn assembled(text: &[u8], words: &mut [u16]) -> Result<Totals, Fault>
    requires { length words.old ≡ 32767 }
    ensures { Tells result words.new (outcome text.now) }
{
    if 65536 < text.len() {
        return Err(Fault {
            refusal: Refusal::NoRoom,
            line: 0,
        });
    }
    let rules = Rules { strict: true };
    assemble_words(rules, text, words)
}

// The listing, from where the pen is.
#[tactic(auto, using(pen::proofs::PenLaws::joined))]
fn show(p: &mut Pen, a: Result<Totals, Fault>, words: &[u16])
    requires a_in_bounds { word_count a ≤ length words.now }
    requires words_len_bound { length words.now ≤ 32767 }
    ensures { Writes p.old p.new (shown_of a words.now) }
{
    match a {
        Ok(t) => {
            lines(p, &words[..t.words]);
            totals(p, t.words, t.waiting)
        }
        Err(f) => refusal(p, u8::from(f.refusal) as usize, f.line),
    }
}

// From byte 0 of a buffer on; how long it is.
fn shown(out: &mut [u8], a: Result<Totals, Fault>, words: &[u16]) -> usize
    requires a_in_bounds { word_count a ≤ length words.now }
    requires words_len_bound { length words.now ≤ 32767 }
    ensures { pen out.new result ≡ wrote (pen out.old 0) (shown_of a words.now) }
{
    let mut p = Pen::new(out);
    show(&mut p, a, words);
    p.at()
}

// Answers how long the listing is. 19 where out is shorter, and then nothing is written; all bytes past the listing stay. With
// 1,212,432 bytes there is room for every listing.
pub fn list(text: &[u8], out: &mut [u8]) -> Result<usize, Refusal>
    ensures result_value { told result ≡ listed text.now (length out.old) }
    ensures out_after { out.new ≡ listed_buffer text.now out.old }
    ensures text_len_bound { length (listing text.now) ≤ 1212432 }
{
    let mut words = [0u16; 32767];
    let a = assembled(text, &mut words);
    let mut scratch = [0u8; 1];
    let n = shown(&mut scratch, a, &words);
    if out.len() < n {
        return Err(Refusal::NoRoom);
    }
    shown(out, a, &words);
    Ok(n)
}
