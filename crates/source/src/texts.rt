// The text of words into a lent buffer.
ghost use Rattle.std.specs.Prelude.{◌≡◌, ◌≤◌, ◌%◌, map, length};
ghost use Rattle.pen.specs.Pen.{pen, wrote};
ghost use Rattle.text.specs.Lines.{ended};
ghost use Rattle.source.specs.Words.{instruction_of};
ghost use Rattle.source.specs.Marks.{used_in};
ghost use Rattle.source.specs.Source.{lines_of, answered, answer, source_buffer, fault, byte_answer, byte_buffer, Small};

use crate::Fault;
use crate::lines::put_lines;
use crate::marks::mark_all;
use crate::words::lowest;
use base::Refusal;
use pen::Pen;
use wordbytes::read_words;

// Each refusal but NoText has no index.
impl From<Refusal> for Fault {
    ghost from_gives = { λ r f. f ≡ fault r 0 };

    fn from(refusal: Refusal) -> Fault {
        Fault { refusal, index: 0 }
    }
}

// The lines from byte 0 of a buffer on; how long they are.
fn written(out: &mut [u8], words: &[u16], used: &[bool]) -> usize
    requires { length words.now ≤ 32767 }
    ensures { pen out.new result ≡ wrote (pen out.old 0) (ended (lines_of (used_in used.now) (length words.now) 0 (map instruction_of words.now))) }
{
    let mut p = Pen::new(out);
    put_lines(&mut p, words, used);
    p.at()
}

// 16, 33 with the index of the lowest word without a text, 19; then nothing is written. Else it answers how long the text is, and all
// bytes past the text stay. With 851,942 bytes there is room for every text.
pub fn text(words: &[u16], out: &mut [u8]) -> Result<usize, Fault>
    ensures result_value { answered result ≡ answer words.now (length out.old) }
    ensures out_after { out.new ≡ source_buffer words.now out.old }
{
    if 32767 < words.len() {
        return Err(Fault::from(Refusal::TooLong));
    }
    if let Some(index) = lowest(words) {
        return Err(Fault {
            refusal: Refusal::NoText,
            index,
        });
    }
    let mut used = [false; 1024];
    mark_all(words, &mut used);
    let mut scratch = [0u8; 1];
    let n = written(&mut scratch, words, &used);
    if out.len() < n {
        return Err(Fault::from(Refusal::NoRoom));
    }
    written(out, words, &used);
    Ok(n)
}

// Of words as bytes, by way of `own`, which has room for as many words as there may be.
fn read_text(bytes: &[u8], own: &mut [u16], out: &mut [u8]) -> Result<usize, Fault>
    requires own_len { length own.old ≡ 32767 }
    requires bytes_len { length bytes.now % 2 ≡ 0 }
    ensures result_value { answered result ≡ byte_answer bytes.now (length out.old) }
    ensures out_after { out.new ≡ byte_buffer bytes.now out.old }
    ensures small { Small (answered result) }
{
    let n = bytes.len() / 2;
    if 32767 < n {
        return Err(Fault::from(Refusal::TooLong));
    }
    read_words(bytes, &mut own[..n]);
    text(&own[..n], out)
}

// As `text`, of words as bytes, the low byte of each first: 31 before all, where there is half a word.
pub fn text_of_bytes(bytes: &[u8], out: &mut [u8]) -> Result<usize, Fault>
    ensures result_value { answered result ≡ byte_answer bytes.now (length out.old) }
    ensures out_after { out.new ≡ byte_buffer bytes.now out.old }
    ensures small { Small (answered result) }
{
    if bytes.len() % 2 != 0 {
        return Err(Fault::from(Refusal::BadBlock));
    }
    let mut own = [0u16; 32767];
    read_text(bytes, &mut own, out)
}
