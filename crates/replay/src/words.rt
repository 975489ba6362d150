// The words of a line: a list of them, or one that counts so many times.
ghost use Rattle.std.specs.Prelude.{◌≤◌, length, IfSome};

use crate::line::Fields;

// The most that a line can have.
pub const WORDS: usize = 32_800;

// Words, as a line has them.
#[derive(Clone, Copy)]
pub enum Words<'a> {
    Listed(Fields<'a>),
    Repeated(usize, u16),
}

impl<'a> Words<'a> {
    // A word and how many times it counts.
    pub fn repeated(fields: &mut Fields) -> Option<Words<'a>> {
        Some(Words::Repeated(fields.size(WORDS)?, fields.read()?))
    }

    // Writes all of them to the front of this room, and answers how many; nothing where one that is listed is wrong, or too many are.
    pub fn write(self, room: &mut [u16]) -> Option<usize>
        ensures { IfSome result (λ n. n ≤ length room.new) }
    {
        match self {
            Words::Listed(fields) => fields.list(room),
            Words::Repeated(count, word) => {
                room.get_mut(..count)?.fill(word);
                Some(count)
            }
        }
    }
}
