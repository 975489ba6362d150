// Step-back and forget.
ghost use Rattle.std.specs.Prelude.{◌≡◌};
ghost use Rattle.base.specs.Numbers.{answer_number};
ghost use Rattle.memory.specs.Bytes.{lent};
ghost use Rattle.journal.specs.States.{whole};
ghost use Rattle.journal.specs.Back.{used_by, fits, restored, backed, step_back, forget_number, forgotten};

use crate::states::valid;
use crate::{State, Used};
use base::Refusal;
use map::Map;
use records::Record;

// What a kind says of a record's two places: as many of them are used as bytes were stored.
#[tactic(auto, unfolding(crate::specs::Back::used_by))]
fn used_by(kind: u8) -> Option<Used>
    ensures { result ≡ used_by kind }
{
    match kind {
        0 => Some(Used::Neither),
        1 => Some(Used::First),
        2 => Some(Used::Both),
        _ => None,
    }
}

// Whether each used address takes a store: nothing is restored yet.
#[tactic(auto, unfolding(crate::specs::Back::fits))]
fn fits(m: Map, mem: &[u8], dev: &[u8], r: Record, u: Used) -> bool
    ensures { result ≡ fits m (lent mem.now dev.now) r (Some u) }
{
    match u {
        Used::Neither => true,
        Used::First => memory::takes_byte(m, mem, dev, r.first.address),
        Used::Both => {
            memory::takes_byte(m, mem, dev, r.second.address)
                && memory::takes_byte(m, mem, dev, r.first.address)
        }
    }
}

// The second byte, then the first.
#[tactic(auto, unfolding(crate::specs::Back::restored))]
fn restore(m: Map, mem: &mut [u8], dev: &mut [u8], r: Record, u: Used)
    ensures { lent mem.new dev.new ≡ restored m (lent mem.old dev.old) r (Some u) }
{
    match u {
        Used::Neither => {}
        Used::First => {
            memory::store_byte(m, mem, dev, r.first.address, r.first.byte);
        }
        Used::Both => {
            memory::store_byte(m, mem, dev, r.second.address, r.second.byte);
            memory::store_byte(m, mem, dev, r.first.address, r.first.byte);
        }
    }
}

// Takes the newest record back: 1, 10, 11. A refusal changes nothing.
pub fn step_back(
    s: &mut State,
    mem: &mut [u8],
    dev: &mut [u8],
    journal: &[u8],
) -> Result<(), Refusal>
    ensures { backed (answer_number result) (whole s.new (lent mem.new dev.new) journal.now) ≡ step_back (whole s.old (lent mem.old dev.old) journal.now) }
{
    if !valid(*s, dev, journal) {
        return Err(Refusal::BadState);
    }
    if s.held == 0 {
        return Err(Refusal::NothingToUndo);
    }
    let slot = records::slot_before(records::room(journal), s.next);
    let r = records::read(journal, slot);
    let used = used_by(r.kind).ok_or(Refusal::BadJournal)?;
    if !fits(s.machine.map, mem, dev, r, used) {
        return Err(Refusal::BadJournal);
    }
    restore(s.machine.map, mem, dev, r, used);
    let registers = r.registers;
    s.machine.registers.value = registers;
    s.next = slot;
    s.held -= 1;
    Ok(())
}

// Empties the journal: 1. Its bytes stay.
#[tactic(auto, unfolding(crate::specs::Back::forget_number, crate::specs::Back::forgotten))]
pub fn forget(s: &mut State, dev: &[u8], journal: &[u8]) -> Result<(), Refusal>
    ensures answer_value { answer_number result ≡ forget_number s.old dev.now journal.now }
    ensures state_value { s.new ≡ forgotten s.old dev.now journal.now }
{
    if !valid(*s, dev, journal) {
        return Err(Refusal::BadState);
    }
    s.next = 0;
    s.held = 0;
    Ok(())
}
