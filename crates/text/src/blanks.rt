// Blanks, and where a run of them or of other bytes ends.
ghost use Rattle.std.specs.Prelude.{◌≡◌, ◌+◌, ◌≤◌, length, drop};
ghost use Rattle.text.specs.Parts.{is_blank, not_blank, run};

// Is it a blank? Byte 11 is one by the definition, and is none to the library's `is_ascii_whitespace`.
#[tactic(auto, unfolding(crate::specs::Parts::is_blank))]
pub fn is_blank(b: u8) -> bool
    ensures { result ≡ is_blank b }
{
    matches!(b, 9..=13 | 32)
}

// How many blanks stand at the front.
fn blanks(s: &[u8]) -> usize
    ensures { (result ≡ run is_blank s.now) × (result ≤ length s.now) }
{
    s.iter().position(|b| !is_blank(*b)).unwrap_or(s.len())
}

// How many bytes that are no blanks stand at the front.
fn word(s: &[u8]) -> usize
    ensures { (result ≡ run not_blank s.now) × (result ≤ length s.now) }
{
    s.iter().position(|b| is_blank(*b)).unwrap_or(s.len())
}

// Where the blanks that start at `from` end.
pub fn past_blanks(s: &[u8], from: usize) -> usize
    requires { from ≤ length s.now }
    ensures { (result ≡ from + run is_blank (drop from s.now)) × (result ≤ length s.now) }
{
    from + blanks(&s[from..])
}

// Where the bytes from `from` on that are no blanks end.
pub fn past_word(s: &[u8], from: usize) -> usize
    requires { from ≤ length s.now }
    ensures { (result ≡ from + run not_blank (drop from s.now)) × (result ≤ length s.now) }
{
    from + word(&s[from..])
}
