// Standard input, cut into lines.
use crate::lent::Lent;
use crate::output::CHUNK;
use crate::script::Script;
use std::io;
use std::io::{Read, Write};

// The most bytes that a line may have.
const LINE: usize = 524_288;

// Room for a line, and for the one byte more by which it is seen that a line is too long.
pub const ROOM: usize = LINE + 1;

// Answers a line. One that is too long is no command, as an empty one is.
fn answer<W: Write>(line: &[u8], script: &mut Script, out: &mut W) -> io::Result<()> {
    if line.len() <= LINE {
        script.answer(line, out)
    } else {
        script.answer(b"", out)
    }
}

// Answers each line. What waits is written out before each read, so that whoever sends line by line has each answer before the
// next read. Where the input has ended, what is left is a line, though no line end follows it.
// A proved loop has to end, and nothing says that the input does: so the reads are counted, up to a number that no run comes to.
pub fn run<R: Read, W: Write>(
    script: &mut Script,
    input: &mut R,
    chunk: &mut [u8; CHUNK],
    line: &mut [u8; ROOM],
    out: &mut W,
) -> io::Result<()> {
    let mut line = Lent::new(line);
    for _ in 0..u64::MAX {
        out.flush()?;
        let taken = input.read(chunk)?;
        if taken == 0 {
            break;
        }
        for part in chunk[..taken].split_inclusive(|b| *b == b'\n') {
            match part.strip_suffix(b"\n") {
                Some(end) => {
                    line.append(end);
                    answer(&line, script, out)?;
                    line.resize(0);
                }
                None => {
                    line.append(part);
                }
            }
        }
    }
    if !line.is_empty() {
        answer(&line, script, out)?;
    }
    out.flush()
}
