// A whole buffer of words.
ghost use Rattle.std.specs.Prelude.{◌≡◌, length, ◌*◌, ◌≤◌};
ghost use Rattle.std.proofs.lemmas.List.Edits.{sets};
ghost use Rattle.wordbytes.specs.Words.{bytes_of, words_from};

use crate::places::{put_words, word_at};

// Fills words from the first bytes. By the words' numbers, since of what is written through `iter_mut` nothing is known afterwards.
pub fn read_words(bytes: &[u8], words: &mut [u16])
    requires { 2 * length words.old ≤ length bytes.now }
    ensures { words.new ≡ words_from (length words.old) bytes.now }
{
    for n in 0..words.len() {
        words[n] = word_at(bytes, 2 * n);
    }
}

// Writes words over the first bytes; the others stay.
pub fn write_words(words: &[u16], bytes: &mut [u8])
    requires { 2 * length words.now ≤ length bytes.old }
    ensures { bytes.new ≡ sets bytes.old 0 (bytes_of words.now) }
{
    put_words(bytes, 0, words);
}
