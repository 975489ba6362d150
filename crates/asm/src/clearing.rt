// Zeros from a place on.
ghost use Rattle.std.specs.Prelude.{◌≡◌, length, take};
ghost use Rattle.asm.specs.Assemble.{filled};

pub fn clear_words(words: &mut [u16], from: usize)
    ensures { words.new ≡ filled (length words.old) (take from words.old) }
{
    if from < words.len() {
        words[from..].fill(0);
    }
}
