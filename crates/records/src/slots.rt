// The slots of a journal.
ghost use Rattle.std.specs.Prelude.{◌≡◌, ◌+◌, ◌<◌, min};
ghost use Rattle.records.specs.Slots.{room, record_at, filled, slot_after, slot_before};

use crate::Record;
use crate::bytes::{decode, encode};

// How many records the journal has room for.
#[tactic(auto, unfolding(crate::specs::Slots::room))]
pub fn room(journal: &[u8]) -> u16
    ensures { result ≡ room journal.now }
{
    (journal.len() / 23).min(4096) as u16
}

// The slot after k and the slot before it, in a ring of d.
#[tactic(auto, using(crate::proofs::Ring::found_after))]
pub fn slot_after(d: u16, k: u16) -> u16
    requires { k < d }
    ensures { result ≡ slot_after d k }
{
    if k + 1 < d { k + 1 } else { 0 }
}

#[tactic(auto, using(crate::proofs::Ring::found_before))]
pub fn slot_before(d: u16, k: u16) -> u16
    requires { k < d }
    ensures { result ≡ slot_before d k }
{
    if 0 < k { k - 1 } else { d - 1 }
}

// How many records are held with one more, in a ring of d.
pub fn one_more(d: u16, held: u16) -> u16
    ensures { result ≡ min (held + 1) d }
{
    held.saturating_add(1).min(d)
}

// The record in slot k.
pub fn read(journal: &[u8], k: u16) -> Record
    requires { k < room journal.now }
    ensures { result ≡ record_at journal.now k }
{
    let at = 23 * (k as usize);
    decode(&journal[at..at + 23])
}

// Fills slot k.
pub fn fill(journal: &mut [u8], k: u16, r: Record)
    requires { k < room journal.old }
    ensures { journal.new ≡ filled journal.old k r }
{
    encode(journal, 23 * (k as usize), r);
}
