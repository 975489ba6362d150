// listing: reads a text from standard input and writes its listing to standard output. It only moves bytes in and out; `lister`
// makes the listing. A read or a write that fails ends it with that error.
#![tactic(auto)]

ghost use Rattle.std.specs.Prelude.{◌≡◌, IfSome, OnOk, length};
ghost use Rattle.std.specs.Io.KnownBytes.{Appends};
ghost use Rattle.lister.specs.Listing.{listing};

use inputs::read_full;
use lister::list;
use std::io;
use std::io::{Read, Write};

// Writes the listing of the whole input. One byte more is read than a listing takes, so that a longer text is seen to be one. The room is
// enough for every listing, so that none is refused.
fn list_input<R: Read, W: Write>(
    input: &mut R,
    output: &mut W,
    text: &mut [u8],
    out: &mut [u8],
) -> io::Result<()>
    requires text_len { length text.old ≡ 65537 }
    requires out_len { length out.old ≡ 1212432 }
    ensures { OnOk result (IfSome (R.remaining input.old) (λ source. Appends (W.contents output.old) (W.contents output.new) (listing source))) }
{
    let n = read_full(input, text)?;
    match list(&text[..n], out) {
        Ok(length) => output.write_all(&out[..length]),
        Err(_) => Ok(()),
    }
}

fn main(rt: HostRuntime) -> io::Result<()> {
    let mut text = [0u8; 65537];
    let mut out = [0u8; 1212432];
    list_input(&mut rt.stdin(), &mut rt.stdout(), &mut text, &mut out)
}
