// The step: planned, then committed.
ghost use Rattle.std.specs.Prelude.{◌≡◌};
ghost use Rattle.base.specs.Numbers.{number_of};
ghost use Rattle.base.specs.Told.{told};
ghost use Rattle.memory.specs.Bytes.{lent};
ghost use Rattle.instruction.specs.declared.Register.TheVariants.{PC};
ghost use Rattle.machine.specs.Moves.{Moves, regs};
ghost use Rattle.machine.specs.Plan.{planned, plan, refusal};
ghost use Rattle.machine.specs.Registers.{put};
ghost use Rattle.machine.specs.States.{machine};
ghost use Rattle.machine.specs.Step.{after, committed, step};

use crate::operands::{flag, get};
use crate::plans::unmoved;
use crate::states::valid;
use crate::words::act_on_word;
use crate::{Machine, Mode, Move, Plan, Registers, StepAnswer};
use base::Refusal;
use instruction::Register;
use map::Map;
use memory::Changes;

// What a step comes to, of a machine in its parts. Nothing is stored, so that the bytes to be replaced can still be read. The word is
// read before it is handed on: with its question mark among the arguments, each step copies the map.
#[tactic(auto, unfolding(crate::specs::Plan::plan, crate::specs::Plan::fetched))]
pub fn move_of(s: &[u16; 8], mode: Mode, map: Map, mem: &[u8], dev: &[u8]) -> Result<Move, Refusal>
    ensures { Moves s.now result (λ g. plan (machine g mode map) (lent mem.now dev.now)) }
{
    if flag(s, 0) {
        return Ok(unmoved(s, StepAnswer::Stop));
    }
    let found = memory::fetch_word(map, mem, dev, get(s, Register::PC))?;
    let word = found.ok_or(Refusal::FetchUnmapped)?;
    act_on_word(s, mode, map, mem, dev, word)
}

// Stores what a step moves: one register's value, and then that of PC, the sixth.
#[tactic(auto, unfolding(crate::specs::Registers::put))]
pub fn store(s: &mut [u16; 8], r: Register, value: u16, pc: u16)
    ensures { regs s.new ≡ put (put (regs s.old) r value) PC pc }
{
    s[u16::from(r) as usize] = value;
    s[5] = pc;
}

// A refusal leaves the registers as they were, and has nothing to store.
#[tactic(auto, unfolding(crate::specs::Plan::refusal))]
fn refused(s: Registers, r: Refusal) -> Plan
    ensures { planned result ≡ refusal s (number_of r) }
{
    Plan {
        answer: Err(r),
        registers: s,
        changes: Changes::Nothing,
    }
}

// The same as `move_of`, with the registers after it.
pub fn plan_of(s: Registers, mode: Mode, map: Map, mem: &[u8], dev: &[u8]) -> Plan
    ensures { planned result ≡ plan (machine s mode map) (lent mem.now dev.now) }
{
    let mut g = s.value;
    // A match and no question mark: a plan has registers for a refusal too.
    match move_of(&g, mode, map, mem, dev) {
        Ok(m) => {
            store(&mut g, m.register, m.value, m.pc);
            Plan {
                answer: Ok(m.answer),
                registers: Registers { value: g },
                changes: m.changes,
            }
        }
        Err(r) => refused(s, r),
    }
}

// The same of a whole machine.
pub fn plan_step(m: Machine, mem: &[u8], dev: &[u8]) -> Plan
    ensures { planned result ≡ plan m (lent mem.now dev.now) }
{
    plan_of(m.registers, m.mode, m.map, mem, dev)
}

// Makes what was planned: for this machine, or for another.
#[tactic(auto, unfolding(crate::specs::Step::committed))]
pub fn commit(
    m: &mut Machine,
    p: Plan,
    mem: &mut [u8],
    dev: &mut [u8],
) -> Result<StepAnswer, Refusal>
    ensures { after (told result) m.new (lent mem.new dev.new) ≡ committed m.old (lent mem.old dev.old) (planned p) }
{
    memory::make(p.changes, mem, dev);
    m.registers = p.registers;
    p.answer
}

// One step: 1, Stop, 2 or 3 at fetch, 4 to 6, then 3, 7, 8, then 9. Anything but an accepted step changes nothing.
#[tactic(auto, unfolding(crate::specs::Step::step))]
pub fn step(m: &mut Machine, mem: &mut [u8], dev: &mut [u8]) -> Result<StepAnswer, Refusal>
    ensures { after (told result) m.new (lent mem.new dev.new) ≡ step m.old (lent mem.old dev.old) }
{
    if !valid(*m, dev) {
        return Err(Refusal::BadState);
    }
    let p = plan_step(*m, mem, dev);
    commit(m, p, mem, dev)
}
