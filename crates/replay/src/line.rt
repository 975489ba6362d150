// The fields of a line, parted by exactly one space: none of them is empty, so that a space too many leaves a field that is
// nothing. A field that is missing or wrong is read as `None`.
ghost use Rattle.std.specs.Prelude.{◌≤◌, ◌<◌, length, IfSome};
ghost use Rattle.std.specs.Iterator.{at_most};
ghost use Rattle.replay.specs.Fields.{most_left};

use crate::texts::Text;
use labels::Label;

// What is still to be read of a line.
#[derive(Clone, Copy)]
pub struct Fields<'a> {
    rest: Option<&'a [u8]>,
    mark: u8,
}

impl<'a> Iterator for Fields<'a> {
    type Item = &'a [u8];

    ghost remaining = { λ s. at_most (most_left s.rest) };

    fn next(&mut self) -> Option<&'a [u8]> {
        let rest = self.rest?;
        let mark = self.mark;
        match rest.iter().position(|b| *b == mark) {
            Some(end) => {
                self.rest = Some(&rest[end + 1..]);
                Some(&rest[..end])
            }
            None => {
                self.rest = None;
                Some(rest)
            }
        }
    }
}

impl<'a> Fields<'a> {
    // The fields of a line.
    pub fn of(line: &'a [u8]) -> Fields<'a> {
        Fields {
            rest: Some(line),
            mark: b' ',
        }
    }

    // The numbers of a field that has commas between them.
    pub fn parted(field: &'a [u8]) -> Fields<'a> {
        Fields {
            rest: Some(field),
            mark: b',',
        }
    }

    // There is no field left.
    pub fn end(self) -> Option<()> {
        match self.rest {
            None => Some(()),
            Some(_) => None,
        }
    }

    // The next field, of a type that says how far it goes.
    pub fn read<T: FromField>(&mut self) -> Option<T> {
        T::from_field(self.next()?)
    }

    // A number that is at most `most`.
    pub fn number(&mut self, most: u32) -> Option<u32>
        ensures { IfSome result (λ n. n ≤ most) }
    {
        decimal(self.next()?).filter(|n| *n <= most)
    }

    // The same, as the size of something.
    pub fn size(&mut self, most: usize) -> Option<usize>
        ensures { IfSome result (λ n. n ≤ most) }
    {
        Some(decimal(self.next()?)? as usize).filter(|n| *n <= most)
    }

    // So many words.
    pub fn words<const N: usize>(&mut self) -> Option<[u16; N]> {
        let mut words = [0; N];
        for word in &mut words {
            *word = self.read()?;
        }
        Some(words)
    }

    // A text.
    pub fn text(&mut self) -> Option<Text<'a>> {
        Text::of(self.next()?)
    }

    // Writes all that is left to the front of this room, and answers how many; nothing where one of them is wrong, or too many are.
    pub fn list<T: FromField + Copy>(self, room: &mut [T]) -> Option<usize>
        ensures { IfSome result (λ n. n ≤ length room.new) }
    {
        let mut count = 0;
        for field in self {
            *room.get_mut(count)? = T::from_field(field)?;
            count += 1;
        }
        Some(count)
    }
}

// What a field can be read as.
pub trait FromField: Sized {
    // What the field says, if it says such a thing.
    fn from_field(field: &[u8]) -> Option<Self>;
}

impl FromField for u8 {
    fn from_field(field: &[u8]) -> Option<u8> {
        u8::try_from(decimal(field)?).ok()
    }
}

impl FromField for u16 {
    fn from_field(field: &[u8]) -> Option<u16> {
        u16::try_from(decimal(field)?).ok()
    }
}

impl FromField for u32 {
    fn from_field(field: &[u8]) -> Option<u32> {
        decimal(field)
    }
}

impl FromField for bool {
    fn from_field(field: &[u8]) -> Option<bool> {
        match decimal(field)? {
            0 => Some(false),
            1 => Some(true),
            _ => None,
        }
    }
}

// Place and length may be any number of 32 bits, so that they can lie past every text.
impl FromField for Label {
    fn from_field(field: &[u8]) -> Option<Label> {
        let mut numbers = Fields::parted(field);
        let label = Label {
            place: numbers.size(u32::MAX as usize)?,
            length: numbers.size(u32::MAX as usize)?,
            address: numbers.read()?,
        };
        numbers.end()?;
        Some(label)
    }
}

// A number in decimal digits, with any number of leading zeros. Where it outgrows 32 bits it is none.
fn decimal(digits: &[u8]) -> Option<u32> {
    if digits.is_empty() {
        return None;
    }
    digits
        .iter()
        .try_fold(0u32, |n, b| n.checked_mul(10)?.checked_add(digit(*b)?))
}

fn digit(b: u8) -> Option<u32>
    ensures { IfSome result (λ d. d < 10) }
{
    char::from(b).to_digit(10)
}
