// How an open reference is made. Those that are kept stand in a lent slice.
ghost use Rattle.std.specs.Prelude.{◌≡◌};
ghost use Rattle.labels.specs.Opens.{open_to, no_open};

use crate::Open;
use base::InstructionIndex;
use parser::Reference;

impl Open {
    // Instruction `word` waits for the name at `place`, which is `size` bytes long.
    pub fn new(place: usize, size: usize, word: InstructionIndex, reference: Reference) -> Open
        ensures { result ≡ open_to place size word.0 reference }
    {
        Open {
            place,
            length: size,
            word,
            reference,
        }
    }

    // What an entry holds before there is a reference in it.
    pub fn none() -> Open
        ensures { result ≡ no_open }
    {
        Open::new(0, 0, InstructionIndex(0), Reference::Jmp)
    }
}
