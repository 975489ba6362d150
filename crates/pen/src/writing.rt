// Bytes into a buffer. Each writer moves the pen past its own bytes.
ghost use Rattle.std.specs.Prelude.{◌≡◌, [], ◌∷◌};
ghost use Rattle.pen.specs.Pen.{pen};
ghost use Rattle.pen.specs.Written.{Writes, page};

// A lent buffer, and the position of the next byte.
#[derive(Drop)]
pub struct Pen<'a> {
    out: &'a mut [u8],
    at: usize,
}

impl<'a> Pen<'a> {
    // At the buffer's first byte.
    pub fn new(out: &'a mut [u8]) -> Pen<'a>
        ensures same_buffer { result.out.ghost_name ≡ out.entry.ghost_name }
        ensures begun { page result ≡ pen out.old 0 }
    {
        Pen::new_at(out, 0)
    }

    // At a byte of the buffer, or past its end.
    pub fn new_at(out: &'a mut [u8], at: usize) -> Pen<'a>
        ensures same_buffer { result.out.ghost_name ≡ out.entry.ghost_name }
        ensures begun { page result ≡ pen out.old at }
    {
        Pen { out, at }
    }

    // How many bytes were written, those with no room among them.
    pub fn at(&self) -> usize
        ensures { result ≡ self.now.at }
    {
        self.at
    }

    // A byte past the end of the buffer is counted and not written.
    pub fn put(&mut self, b: u8)
        ensures { Writes self.old self.new (b ∷ []) }
    {
        if self.at < self.out.len() {
            self.out[self.at] = b;
        }
        self.at = self.at.saturating_add(1);
    }

    #[tactic(auto, using(crate::proofs::PenLaws::none, crate::proofs::PenLaws::joined))]
    pub fn put_all(&mut self, bytes: &[u8])
        ensures { Writes self.old self.new bytes.now }
    {
        for b in bytes {
            self.put(*b);
        }
    }
}
