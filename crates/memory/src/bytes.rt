// One byte: read where it is, stored where it goes.
ghost use Rattle.std.specs.Prelude.{◌≡◌};
ghost use Rattle.memory.specs.Bytes.{lent, get, put, read_byte, takes, store_byte};

use map::{Map, Place};

// The byte at a place and the place, where the bytes lent have it.
#[tactic(auto, unfolding(crate::specs::Bytes::get, crate::specs::Bytes::read_in))]
pub fn read_at(p: Place, mem: &[u8], dev: &[u8]) -> Option<(u8, Place)>
    ensures { result ≡ get p (lent mem.now dev.now) }
{
    match p {
        Place::Linear(i) => mem.get(i).map(|byte| (*byte, p)),
        Place::Bank { index, .. } => dev.get(index).map(|byte| (*byte, p)),
        Place::Nowhere => None,
    }
}

// The byte stored at a place, where the bytes lent have it. (c): with `get_mut` in place of the tests its proof does not close.
#[tactic(auto, unfolding(crate::specs::Bytes::put))]
pub fn store_at(p: Place, mem: &mut [u8], dev: &mut [u8], v: u8)
    ensures { lent mem.new dev.new ≡ put p (lent mem.old dev.old) v }
{
    match p {
        Place::Linear(i) => {
            if i < mem.len() {
                mem[i] = v;
            }
        }
        Place::Bank { index, .. } => {
            if index < dev.len() {
                dev[index] = v;
            }
        }
        Place::Nowhere => {}
    }
}

// The byte at an address and the place that has it, or none where the address is unmapped.
#[tactic(auto, unfolding(crate::specs::Bytes::read_byte, crate::specs::Bytes::place_in))]
pub fn read_byte(m: Map, mem: &[u8], dev: &[u8], a: u16) -> Option<(u8, Place)>
    ensures { result ≡ read_byte m (lent mem.now dev.now) a }
{
    let p = map::place_of(m, mem.len(), dev.len(), a);
    read_at(p, mem, dev)
}

// Whether a store at the address would be made.
#[tactic(auto, unfolding(crate::specs::Bytes::takes, crate::specs::Bytes::target_in))]
pub fn takes_byte(m: Map, mem: &[u8], dev: &[u8], a: u16) -> bool
    ensures { result ≡ takes m (lent mem.now dev.now) a }
{
    let p = map::target_of(m, mem.len(), dev.len(), a);
    map::is_somewhere(p)
}

// Stores a byte; whether it was stored.
#[tactic(auto, unfolding(crate::specs::Bytes::takes, crate::specs::Bytes::store_byte, crate::specs::Bytes::target_in))]
pub fn store_byte(m: Map, mem: &mut [u8], dev: &mut [u8], a: u16, v: u8) -> bool
    ensures value { result ≡ takes m (lent mem.old dev.old) a }
    ensures dev_after { lent mem.new dev.new ≡ store_byte m (lent mem.old dev.old) a v }
{
    let p = map::target_of(m, mem.len(), dev.len(), a);
    store_at(p, mem, dev, v);
    map::is_somewhere(p)
}
