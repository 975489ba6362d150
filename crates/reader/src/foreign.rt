// The line of the first byte that is not ASCII.
ghost use Rattle.std.specs.Prelude.{◌≡◌, ◌==◌, count_by};
ghost use Rattle.text.specs.Lines.{foreign_line};

// How many lines end in it.
fn ends(text: &[u8]) -> usize
    ensures { result ≡ count_by (λ x. x == 10) text.now }
{
    text.iter().filter(|b| **b == b'\n').count()
}

// The line, from 1, of the first byte over 127; 0 where there is none, as the definition `foreign_line` has it.
pub fn foreign_line(text: &[u8]) -> usize
    ensures { result ≡ foreign_line 1 text.now }
{
    match text.iter().position(|b| !b.is_ascii()) {
        Some(i) => ends(&text[..i]) + 1,
        None => 0,
    }
}
