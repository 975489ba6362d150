// Texts: pairs of lower-case hex digits, or `-` for the empty one.
ghost use Rattle.std.specs.Prelude.{◌≤◌};

// A text as it stands in its line.
#[derive(Clone, Copy)]
pub struct Text<'a> {
    digits: &'a [u8],
}

impl<'a> Text<'a> {
    // The text that a field spells, if it spells one.
    pub fn of(field: &'a [u8]) -> Option<Text<'a>> {
        match field {
            b"-" => Some(Text::empty()),
            digits if is_hex(digits) => Some(Text { digits }),
            _ => None,
        }
    }

    // The empty text.
    pub fn empty() -> Text<'a> {
        Text { digits: b"" }
    }

    // How many bytes it has.
    pub fn len(self) -> usize {
        self.digits.len() / 2
    }

    // This text, if it has at most so many bytes.
    pub fn at_most(self, most: usize) -> Option<Text<'a>> {
        if self.len() <= most { Some(self) } else { None }
    }

    // Its bytes, spelt out in this room, which is long enough for the texts that it is lent for.
    pub fn spell(self, room: &mut [u8]) -> &[u8] {
        let len = self.len().min(room.len());
        let bytes = &mut room[..len];
        self.write(bytes);
        bytes
    }

    // Writes its bytes over those from `at` on, if there are as many.
    pub fn write_at(self, to: &mut [u8], at: usize) -> Option<()> {
        let end = at.checked_add(self.len())?;
        self.write(to.get_mut(at..end)?);
        Some(())
    }

    // Writes its bytes over these, as far as both go.
    pub fn write(self, to: &mut [u8]) {
        for (byte, pair) in to.iter_mut().zip(self.digits.chunks_exact(2)) {
            *byte = 16 * nibble(pair[0]) + nibble(pair[1]);
        }
    }
}

fn is_hex(digits: &[u8]) -> bool {
    !digits.is_empty()
        && digits.len() % 2 == 0
        && digits
            .iter()
            .all(|b| matches!(b, b'0'..=b'9' | b'a'..=b'f'))
}

// The value of what is a hex digit. In ASCII `0` is three sixteens, and `a` is six and one more. `hex` would take upper-case digits as
// well, and what it or `to_digit` answers would have to be looked at once more.
fn nibble(digit: u8) -> u8
    ensures { result ≤ 15 }
{
    if digit <= b'9' {
        digit % 16
    } else {
        (digit % 16 + 9) % 16
    }
}
