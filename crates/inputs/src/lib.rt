// Input into a lent buffer, for the programs.
#![tactic(auto)]

ghost use Rattle.std.specs.Prelude.{◌≤◌, ◌<◌, ℕ, IfOk, OnErr, length, take};
ghost use Rattle.std.specs.Io.KnownBytes.{Consumes, IsAtEnd};

use std::io;
use std::io::Read;

// Reads until buf is full or the input ends, and answers how many bytes it put at the start of buf: the input's next, in their order.
// What buf held past them may be lost, since a reader may use its whole buffer. A read that fails ends it with that error, and then the
// bytes that were read before stand at the start of buf.
pub fn read_full<R: Read>(input: &mut R, buf: &mut [u8]) -> io::Result<usize>
    ensures within { IfOk result (λ n. n ≤ length buf.new) }
    ensures bytes { IfOk result (λ n. Consumes (R.remaining input.old) (R.remaining input.new) (take n buf.new)) }
    ensures end { IfOk result (λ n. n < length buf.new → IsAtEnd (R.remaining input.new)) }
    ensures err { OnErr result ((n : ℕ) × (n ≤ length buf.new) × Consumes (R.remaining input.old) (R.remaining input.new) (take n buf.new)) }
{
    let mut done = 0;
    while done < buf.len() {
        let n = input.read(&mut buf[done..])?;
        if n == 0 {
            break;
        }
        done += n;
    }
    Ok(done)
}
