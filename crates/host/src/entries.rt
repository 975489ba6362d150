// Setting a register, protecting, a new device.
ghost use Rattle.std.specs.Prelude.{◌≡◌};
ghost use Rattle.base.specs.Numbers.{answer_number};
ghost use Rattle.host.specs.Host.{set_number, set_state, protect_number, protect_state, register_number, register_state};

use crate::states::empty_journal;
use base::Refusal;
use journal::State;

// Sets a register by its number: 1, 18. A refusal changes nothing.
pub fn set_register(
    s: &mut State,
    dev: &[u8],
    journal: &[u8],
    number: usize,
    value: u16,
) -> Result<(), Refusal>
    ensures answer_value { answer_number result ≡ set_number s.old dev.now journal.now number }
    ensures state_value { s.new ≡ set_state s.old dev.now journal.now number value }
{
    if !journal::valid(*s, dev, journal) {
        return Err(Refusal::BadState);
    }
    machine::set_register(&mut s.machine, dev, number, value)?;
    empty_journal(s);
    Ok(())
}

// Protects the addresses from start on, len of them: 1, 12, 13, 14. A refusal changes nothing.
pub fn protect(
    s: &mut State,
    dev: &[u8],
    journal: &[u8],
    start: u16,
    len: u16,
) -> Result<(), Refusal>
    ensures answer_value { answer_number result ≡ protect_number s.old dev.now journal.now start len }
    ensures state_value { s.new ≡ protect_state s.old dev.now journal.now start len }
{
    if !journal::valid(*s, dev, journal) {
        return Err(Refusal::BadState);
    }
    map::protect(&mut s.machine.map, dev, start, len)?;
    empty_journal(s);
    Ok(())
}

// A new device over the addresses from start on, size of them: 1, 12, 13, 14, 17. A refusal changes nothing.
pub fn register_device(
    s: &mut State,
    dev: &[u8],
    journal: &[u8],
    start: u16,
    size: u16,
) -> Result<(), Refusal>
    ensures answer_value { answer_number result ≡ register_number s.old dev.now journal.now start size }
    ensures state_value { s.new ≡ register_state s.old dev.now journal.now start size }
{
    if !journal::valid(*s, dev, journal) {
        return Err(Refusal::BadState);
    }
    map::register_device(&mut s.machine.map, dev, start, size)?;
    empty_journal(s);
    Ok(())
}
