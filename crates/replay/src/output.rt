// What is written waits in one buffer, so that an answer costs no call of its own: it goes out when the buffer is full and more
// comes, and before more input is waited for. A write that fails is the last one: what waits then is left.
ghost use Rattle.std.specs.Io.{WritesAtMost};

use crate::lent::Lent;
use std::io;
use std::io::Write;

// How much waits at most, and so how much is written at a time.
pub const CHUNK: usize = 65_536;

// Where answers go.
#[derive(Drop)]
pub struct Output<'a, W> {
    sink: &'a mut W,
    waiting: Lent<'a>,
}

impl<'a, W: Write> Output<'a, W> {
    // Nothing waits yet.
    pub fn new(sink: &'a mut W, room: &'a mut [u8; CHUNK]) -> Output<'a, W> {
        Output {
            sink,
            waiting: Lent::new(room),
        }
    }

    // Writes out what waits.
    fn pass(&mut self) -> io::Result<()> {
        self.sink.write_all(&self.waiting)?;
        self.waiting.resize(0);
        Ok(())
    }

    // Bytes that don't all fit. This stands apart, so that the test for room is inlined.
    #[cold]
    #[inline(never)]
    fn write_parts(&mut self, bytes: &[u8]) -> io::Result<()> {
        let taken = self.waiting.append(bytes);
        for part in bytes[taken..].chunks(CHUNK) {
            self.pass()?;
            self.waiting.append(part);
        }
        Ok(())
    }
}

impl<W: Write> Write for Output<'_, W> {
    fn write(&mut self, bytes: &[u8]) -> io::Result<usize> {
        if self.waiting.free() == 0 {
            self.pass()?;
        }
        Ok(self.waiting.append(bytes))
    }

    fn flush(&mut self) -> io::Result<()> {
        self.pass()?;
        self.sink.flush()
    }

    #[inline(always)]
    fn write_all(&mut self, bytes: &[u8]) -> io::Result<()> {
        if bytes.len() <= self.waiting.free() {
            self.waiting.append(bytes);
            Ok(())
        } else {
            self.write_parts(bytes)
        }
    }
}
