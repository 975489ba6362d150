// Lines.
ghost use Rattle.std.specs.Prelude.{◌≡◌, ◌+◌, ◌≤◌, length, drop};
ghost use Rattle.text.specs.Parts.{run};
ghost use Rattle.text.specs.Lines.{not_end};

// How many bytes of the first line there are, without its end.
fn line(s: &[u8]) -> usize
    ensures { (result ≡ run not_end s.now) × (result ≤ length s.now) }
{
    s.iter().position(|b| *b == b'\n').unwrap_or(s.len())
}

// Where the line that starts at `from` ends.
pub fn line_end(s: &[u8], from: usize) -> usize
    requires { from ≤ length s.now }
    ensures { (result ≡ from + run not_end (drop from s.now)) × (result ≤ length s.now) }
{
    from + line(&s[from..])
}
