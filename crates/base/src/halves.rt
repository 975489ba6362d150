// A word is two bytes, the low one first.
ghost use Rattle.std.specs.Prelude.{◌≡◌};
ghost use Rattle.base.specs.Words.{word_of, low_of, high_of};

pub fn word(low: u8, high: u8) -> u16
    ensures { result ≡ word_of low high }
{
    u16::from_le_bytes([low, high])
}

pub fn low(w: u16) -> u8
    ensures { result ≡ low_of w }
{
    w.to_le_bytes()[0]
}

pub fn high(w: u16) -> u8
    ensures { result ≡ high_of w }
{
    w.to_le_bytes()[1]
}
