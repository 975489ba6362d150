// A name in a table.
ghost use Rattle.std.specs.Prelude.{◌≡◌};
ghost use Rattle.base.specs.Names.{letters};

// How many bytes a name has, five at most, and the bytes, with zeros behind them. They stand in the table itself, so that a table has no
// addresses: the loader would write these, and an archive's data would not be constant.
#[derive(Clone, Copy)]
pub struct Name(pub usize, pub [u8; 5]);

impl Name {
    // The bytes that are its own.
    pub fn letters(&self) -> &[u8]
        ensures { result.now ≡ letters self.now }
    {
        &self.1[..self.0.min(5)]
    }
}
