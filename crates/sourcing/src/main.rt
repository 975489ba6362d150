// sourcing: reads words from standard input, the low byte of each first, and writes their assembly text to standard output; or one line
// that says the refusal, `refused N at K`, with the word's index for 33 and 0 for each other. No text starts with a small letter.
// It only moves bytes in and out; `source` makes the text. A read or a write that fails ends it with that error.
#![tactic(auto)]

ghost use Rattle.std.specs.Prelude.{◌≡◌, IfSome, OnOk, length};
ghost use Rattle.std.specs.Io.KnownBytes.{Appends};
ghost use Rattle.base.specs.Numbers.{number_of};
ghost use Rattle.pen.specs.Pen.{pen, wrote};
ghost use Rattle.source.specs.Source.{longest_text};
ghost use Rattle.sourcing.specs.Sourcing.{refusal_line, output_of};

use inputs::read_full;
use pen::Pen;
use source::{Fault, text_of_bytes};
use std::io;
use std::io::{Read, Write};

#[tactic(auto, unfolding(crate::specs::Sourcing::refusal_line, pen::specs::Numbers::two_numbers))]
fn refusal_line(out: &mut [u8], f: Fault) -> usize
    ensures { pen out.new result ≡ wrote (pen out.old 0) (refusal_line (number_of f.refusal) f.index) }
{
    let mut p = Pen::new(out);
    p.two_numbers(b"refused ", u8::from(f.refusal) as usize, b" at ", f.index);
    p.at()
}

fn write_refusal<W: Write>(w: &mut W, f: Fault) -> io::Result<()>
    ensures { OnOk result (Appends (W.contents w.old) (W.contents w.new) (refusal_line (number_of f.refusal) f.index)) }
{
    let mut line = [0u8; 64];
    let n = refusal_line(&mut line, f);
    w.write_all(&line[..n])
}

// Writes the text of the words that are read, or the refusal's line. One word more is read than a program may have, so that a longer one
// is seen to be one. The room is enough for every text.
fn source_input<R: Read, W: Write>(
    input: &mut R,
    output: &mut W,
    words: &mut [u8],
    out: &mut [u8],
) -> io::Result<()>
    requires words_len { length words.old ≡ 65536 }
    requires out_len { length out.old ≡ longest_text }
    ensures { OnOk result (IfSome (R.remaining input.old) (λ bytes. Appends (W.contents output.old) (W.contents output.new) (output_of bytes))) }
{
    let n = read_full(input, words)?;
    match text_of_bytes(&words[..n], out) {
        Ok(length) => output.write_all(&out[..length]),
        Err(f) => write_refusal(output, f),
    }
}

fn main(rt: HostRuntime) -> io::Result<()> {
    let mut words = [0u8; 65536];
    let mut out = [0u8; 851942];
    source_input(&mut rt.stdin(), &mut rt.stdout(), &mut words, &mut out)
}
