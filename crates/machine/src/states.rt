// A machine's state: whether it is valid, a new one, and setting a register.
ghost use Rattle.std.specs.Prelude.{◌≡◌};
ghost use Rattle.base.specs.Numbers.{answer_number};
ghost use Rattle.machine.specs.States.{valid, fresh, set_number, set_machine};

use crate::{Machine, Mode, Registers};
use base::Refusal;

// Any registers are valid, and either mode: the tables decide.
#[tactic(auto, unfolding(crate::specs::States::valid))]
pub fn valid(m: Machine, dev: &[u8]) -> bool
    ensures { result ≡ valid m dev.now }
{
    map::valid(m.map, dev)
}

// A new state: registers zero, tables empty.
pub fn new(debug: bool) -> Machine
    ensures { result ≡ fresh debug }
{
    Machine {
        registers: Registers { value: [0; 8] },
        mode: Mode { debug },
        map: map::empty(),
    }
}

// Sets a register by its number: 1, then 18 for a number over 7. A refusal leaves the machine as it was.
#[tactic(auto, unfolding(crate::specs::States::set_number, crate::specs::States::set_order, crate::specs::States::set_machine, crate::specs::States::with_register))]
pub fn set_register(m: &mut Machine, dev: &[u8], number: usize, value: u16) -> Result<(), Refusal>
    ensures answer_value { answer_number result ≡ set_number m.old dev.now number }
    ensures machine_value { m.new ≡ set_machine m.old dev.now number value }
{
    if !valid(*m, dev) {
        return Err(Refusal::BadState);
    }
    if 7 < number {
        return Err(Refusal::BadRegister);
    }
    m.registers.value[number] = value;
    Ok(())
}
