// Which name an entry has.
ghost use Rattle.std.specs.Prelude.{◌≡◌};
ghost use Rattle.labels.specs.Labels.{names};

use text::same;

// Is the name the part of the text that an entry says? An entry that runs past the text names nothing.
pub fn names(text: &[u8], place: usize, size: usize, name: &[u8]) -> bool
    ensures { result ≡ names text.now place size name.now }
{
    if size != name.len() {
        return false;
    }
    if text.len() < place {
        return false;
    }
    if text.len() - place < size {
        return false;
    }
    let past = place + size;
    same(&text[place..past], name)
}
