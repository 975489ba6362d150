// What a word says, as text.
ghost use Rattle.instruction.specs.Decode.{decode};
ghost use Rattle.pen.specs.Written.{Writes};
ghost use Rattle.lister.specs.Listing.{text_of};

use instruction::{Edition, decode};
use pen::Pen;

pub fn put_word_text(p: &mut Pen, w: u16)
    ensures { Writes p.old p.new (text_of (decode w)) }
{
    if let Ok(i) = decode(w) {
        p.put_text(Edition::First, i);
    }
}
