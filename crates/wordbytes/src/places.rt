// Words at a byte of a buffer.
ghost use Rattle.std.specs.Prelude.{◌≡◌, length, ◌+◌, ◌*◌, ◌<◌, ◌≤◌, drop};
ghost use Rattle.std.proofs.lemmas.List.Edits.{sets};
ghost use Rattle.wordbytes.specs.Words.{word_bytes, bytes_of, word_at, words_from};

use std::array;

// The word at byte i and the next one.
pub fn word_at(bytes: &[u8], i: usize) -> u16
    requires { i + 1 < length bytes.now }
    ensures { result ≡ word_at bytes.now i }
{
    base::word(bytes[i], bytes[i + 1])
}

// Writes a word over two bytes, from byte i on.
pub fn put_word(bytes: &mut [u8], i: usize, w: u16)
    requires { i + 1 < length bytes.old }
    ensures { bytes.new ≡ sets bytes.old i (word_bytes w) }
{
    bytes[i] = base::low(w);
    bytes[i + 1] = base::high(w);
}

// Writes words over bytes, from byte i on.
pub fn put_words(bytes: &mut [u8], i: usize, words: &[u16])
    requires { i + 2 * length words.now ≤ length bytes.old }
    ensures { bytes.new ≡ sets bytes.old i (bytes_of words.now) }
{
    for (n, w) in words.iter().enumerate() {
        put_word(bytes, i + 2 * n, *w);
    }
}

// The words that stand in a row from byte i on, as many as the array has room for.
pub fn words_at<const N: usize>(bytes: &[u8], i: usize) -> [u16; N]
    requires { i + 2 * N ≤ length bytes.now }
    ensures { result ≡ words_from N (drop i bytes.now) }
{
    array::from_fn(|n| word_at(bytes, i + 2 * n))
}
