// A line that is being written. It has room for the longest text, so a byte for which it has none is left out, and no caller
// shows that there is room.
ghost use Rattle.std.specs.Prelude.{◌≡◌, []};
ghost use Rattle.printer.specs.Line.{added};

use arrayvec::ArrayVec;

#[derive(Drop)]
pub struct Line {
    // the bytes so far
    pub text: ArrayVec<u8, 32>,
}

impl Line {
    pub(crate) fn empty() -> Line
        ensures { result.text.items ≡ [] }
    {
        Line {
            text: ArrayVec::new(),
        }
    }

    pub(crate) fn add(&mut self, s: &[u8])
        ensures { self.new.text.items ≡ added self.old.text.items s.now }
    {
        let n = self.text.remaining_capacity().min(s.len());
        // Byte by byte: what copies them at once goes by memmove, which the archive would need of whoever links it.
        for b in &s[..n] {
            self.text.push(*b);
        }
    }
}
