// A program: its words stored from address 0 on, then a region over as many bytes as it has words.
ghost use Rattle.std.specs.Prelude.{◌≡◌, length, ◌≤◌};
ghost use Rattle.base.specs.Numbers.{answer_number};
ghost use Rattle.base.specs.Told.{told};
ghost use Rattle.memory.specs.Bytes.{lent};
ghost use Rattle.memory.specs.Words.{is_done};
ghost use Rattle.memory.specs.Program.{store_words, load_number, load_map, load_bytes};

use crate::Stored;
use crate::words::store_word;
use base::{ByteAddress, InstructionIndex, Refusal};
use map::{Map, Region};

#[tactic(auto, unfolding(crate::specs::Words::is_done))]
fn is_done(r: Result<Stored, Refusal>) -> bool
    ensures { result ≡ is_done (told r) }
{
    matches!(r, Ok(Stored::Done))
}

// Instruction i at byte 2i, up to the first that is not stored; whether all were.
fn store_words(m: Map, mem: &mut [u8], dev: &mut [u8], words: &[u16]) -> bool
    requires { length words.now ≤ 32768 }
    ensures value { result ≡ (store_words m (lent mem.old dev.old) 0 words.now).all }
    ensures dev_after { lent mem.new dev.new ≡ (store_words m (lent mem.old dev.old) 0 words.now).bytes }
{
    for (i, &w) in words.iter().enumerate() {
        let a = ByteAddress::from(InstructionIndex(i as u16));
        if !is_done(store_word(m, mem, dev, a.0 as u16, w)) {
            return false;
        }
    }
    true
}

// Loads a program: 1, 16, 14, 15, 13. What was stored stays where the answer is 15 or 13.
#[tactic(auto, unfolding(crate::specs::Program::load_number, crate::specs::Program::load_order, crate::specs::Program::load_map, crate::specs::Program::load_bytes, crate::specs::Program::begins))]
pub fn write_program(
    m: &mut Map,
    mem: &mut [u8],
    dev: &mut [u8],
    words: &[u16],
) -> Result<(), Refusal>
    ensures answer_value { answer_number result ≡ load_number m.old (lent mem.old dev.old) words.now }
    ensures map_value { m.new ≡ load_map m.old (lent mem.old dev.old) words.now }
    ensures dev_after { lent mem.new dev.new ≡ load_bytes m.old (lent mem.old dev.old) words.now }
{
    if !map::valid(*m, dev) {
        return Err(Refusal::BadState);
    }
    if 32768 < words.len() {
        return Err(Refusal::TooLong);
    }
    if 8 <= m.regions {
        return Err(Refusal::TableFull);
    }
    if !store_words(*m, mem, dev, words) {
        return Err(Refusal::WriteFailed);
    }
    let len = words.len() as u16;
    map::add_region(m, Region { start: 0, len })
}
