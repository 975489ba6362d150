// The step, planned, recorded and committed.
ghost use Rattle.std.specs.Prelude.{◌≡◌, true, ◌≤◌, ◌<◌, max};
ghost use Rattle.base.specs.Told.{told};
ghost use Rattle.machine.specs.Moves.{regs};
ghost use Rattle.memory.specs.Bytes.{lent};
ghost use Rattle.records.specs.Slots.{room};
ghost use Rattle.journal.specs.States.{whole, valid};
ghost use Rattle.journal.specs.Step.{result_of, replaced, record_of, advanced, noted, step};

use crate::State;
use base::Refusal;
use machine::StepAnswer;
use map::Map;
use memory::{Change, Changes};
use records::{Old, Record};

// The byte that is still at the place of a byte to be stored.
#[tactic(auto, unfolding(crate::specs::Step::replaced, crate::specs::Step::byte_of))]
fn replaced(x: Change, mem: &[u8], dev: &[u8]) -> Old
    ensures { result ≡ replaced (lent mem.now dev.now) x }
{
    let address = x.address;
    match memory::read_at(x.place, mem, dev) {
        Some((byte, _)) => Old { address, byte },
        None => Old { address, byte: 0 },
    }
}

// The record of a step that is planned and not yet made.
fn record_of(registers: [u16; 8], mem: &[u8], dev: &[u8], c: Changes) -> Record
    ensures { result ≡ record_of (regs registers) (lent mem.now dev.now) c }
{
    let none = Old {
        address: 0,
        byte: 0,
    };
    match c {
        Changes::Nothing => Record {
            kind: 0,
            registers,
            first: none,
            second: none,
        },
        Changes::One(x) => Record {
            kind: 1,
            registers,
            first: replaced(x, mem, dev),
            second: none,
        },
        Changes::Two(x, y) => Record {
            kind: 2,
            registers,
            first: replaced(x, mem, dev),
            second: replaced(y, mem, dev),
        },
    }
}

// A record more, in a journal with room for d: the bytes that are to be replaced are still there.
#[tactic(auto, unfolding(crate::specs::Step::advanced, crate::specs::Step::noted))]
fn note(s: &mut State, mem: &[u8], dev: &[u8], c: Changes, journal: &mut [u8], d: u16)
    requires d_value { d ≡ room journal.old }
    requires held_le_d { (s.old.held ≤ d) × (s.old.next < max 1 d) }
    ensures state_after { s.new ≡ advanced s.old d }
    ensures journal_after { journal.new ≡ noted s.old.next d (record_of s.old.machine.registers (lent mem.now dev.now) c) journal.old }
{
    if d == 0 {
        return;
    }
    let r = record_of(s.machine.registers.value, mem, dev, c);
    records::fill(journal, s.next, r);
    s.next = records::slot_after(d, s.next);
    s.held = records::one_more(d, s.held);
}

// A step of a valid state, which stays valid. The registers stay where they are, and two numbers are stored into them. The map comes
// by value too: read from the lent state at each step it costs a third more instructions.
pub fn turn(
    s: &mut State,
    map: Map,
    mem: &mut [u8],
    dev: &mut [u8],
    journal: &mut [u8],
    d: u16,
) -> Result<StepAnswer, Refusal>
    requires map_value { map ≡ s.old.machine.map }
    requires d_value { d ≡ room journal.old }
    requires journal_value { valid s.old dev.old journal.old ≡ true }
    ensures journal_after { result_of (told result) (whole s.new (lent mem.new dev.new) journal.new) ≡ step (whole s.old (lent mem.old dev.old) journal.old) }
    ensures stays_valid { valid s.new dev.new journal.new ≡ true }
{
    let m = machine::move_of(&s.machine.registers.value, s.machine.mode, map, mem, dev)?;
    if let StepAnswer::Stop = m.answer {
        return Ok(StepAnswer::Stop);
    }
    note(s, mem, dev, m.changes, journal, d);
    memory::make(m.changes, mem, dev);
    machine::store(&mut s.machine.registers.value, m.register, m.value, m.pc);
    Ok(m.answer)
}
