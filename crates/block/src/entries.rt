// The entries of the block's two tables, which are two words each.
ghost use Rattle.std.specs.Prelude.{◌≡◌, ℕ, ◌+◌, ◌*◌, ◌≤◌, [], ◌∷◌, length};
ghost use Rattle.std.proofs.lemmas.List.Edits.{sets};
ghost use Rattle.map.specs.Entries.{region, device};
ghost use Rattle.map.specs.declared.Region.{Region};
ghost use Rattle.map.specs.declared.Device.{Device};
ghost use Rattle.wordbytes.specs.Words.{bytes_of, word_at};
ghost use Rattle.block.specs.Entries.{entry_words, entries_from, Pairs};
ghost use Rattle.block.specs.Pairs.{region_pairs, device_pairs};

use map::{Device, Region};
use std::array;
use wordbytes::{put_words, word_at};

// An entry is its two words.
pub trait Entry {
    ghost first: { Self → ℕ };

    ghost second: { Self → ℕ };

    ghost of: { ℕ → ℕ → Self };

    fn words(&self) -> [u16; 2]
        ensures { result ≡ first self.now ∷ second self.now ∷ [] };

    fn of(a: u16, b: u16) -> Self
        ensures { result ≡ of a b };

    ghost laws: { Pairs first second of };
}

impl Entry for Region {
    ghost first = { λ r. r.start };

    ghost second = { λ r. r.len };

    ghost of = { region };

    ghost laws = { region_pairs };

    fn words(&self) -> [u16; 2] {
        [self.start, self.len]
    }

    fn of(a: u16, b: u16) -> Region {
        Region { start: a, len: b }
    }
}

impl Entry for Device {
    ghost first = { λ d. d.start };

    ghost second = { λ d. d.end };

    ghost of = { device };

    ghost laws = { device_pairs };

    fn words(&self) -> [u16; 2] {
        [self.start, self.end]
    }

    fn of(a: u16, b: u16) -> Device {
        Device { start: a, end: b }
    }
}

// Writes entries over four bytes each, from byte i on.
pub fn put_entries<E: Entry>(block: &mut [u8], i: usize, entries: &[E])
    requires { i + 4 * length entries.now ≤ length block.old }
    ensures { block.new ≡ sets block.old i (bytes_of (entry_words E.first E.second entries.now)) }
{
    for (n, e) in entries.iter().enumerate() {
        put_words(block, i + 4 * n, &e.words());
    }
}

fn entry_at<E: Entry>(block: &[u8], i: usize) -> E
    requires { i + 4 ≤ length block.now }
    ensures { result ≡ E.of (word_at block.now i) (word_at block.now (i + 2)) }
{
    E::of(word_at(block, i), word_at(block, i + 2))
}

// The entries that stand in a row from byte i on, as many as the array has room for.
pub fn entries_at<E: Entry, const N: usize>(block: &[u8], i: usize) -> [E; N]
    requires { i + 4 * N ≤ length block.now }
    ensures { result ≡ entries_from E.of N block.now i }
{
    array::from_fn(|n| entry_at(block, i + 4 * n))
}
