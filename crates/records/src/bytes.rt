// A record as 23 bytes: numbers low byte first.
ghost use Rattle.std.specs.Prelude.{◌≡◌, length, ◌+◌, ◌≤◌};
ghost use Rattle.std.proofs.lemmas.List.Edits.{sets};
ghost use Rattle.records.specs.Records.{old_bytes, encode, decode};

use crate::{Old, Record};
use wordbytes::{put_word, put_words, word_at, words_at};

// The record of 23 bytes.
pub fn decode(bytes: &[u8]) -> Record
    requires { length bytes.now ≡ 23 }
    ensures { result ≡ decode bytes.now }
{
    Record {
        kind: bytes[0],
        registers: words_at(bytes, 1),
        first: Old {
            address: word_at(bytes, 17),
            byte: bytes[19],
        },
        second: Old {
            address: word_at(bytes, 20),
            byte: bytes[22],
        },
    }
}

// Writes an address and the old byte at it over three bytes.
fn put_old(bytes: &mut [u8], i: usize, o: Old)
    requires { i + 3 ≤ length bytes.old }
    ensures { bytes.new ≡ sets bytes.old i (old_bytes o) }
{
    put_word(bytes, i, o.address);
    bytes[i + 2] = o.byte;
}

// Writes a record over 23 bytes.
pub fn encode(bytes: &mut [u8], i: usize, r: Record)
    requires { i + 23 ≤ length bytes.old }
    ensures { bytes.new ≡ sets bytes.old i (encode r) }
{
    bytes[i] = r.kind;
    put_words(bytes, i + 1, &r.registers);
    put_old(bytes, i + 17, r.first);
    put_old(bytes, i + 20, r.second);
}
