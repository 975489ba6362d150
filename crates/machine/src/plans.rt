// The ways in which a plan ends: going on to the next instruction, or landing where it jumped.
ghost use Rattle.std.specs.Prelude.{◌≡◌};
ghost use Rattle.base.specs.Choice.{cond};
ghost use Rattle.base.specs.Told.{is, told};
ghost use Rattle.instruction.specs.declared.Register.TheVariants.{PC};
ghost use Rattle.memory.specs.declared.Changes.TheVariants.{Nothing};
ghost use Rattle.machine.specs.Acts.{next, jump, result_of};
ghost use Rattle.machine.specs.Moves.{Moves};
ghost use Rattle.machine.specs.Plan.{plans, finished};
ghost use Rattle.machine.specs.Registers.{put};
ghost use Rattle.machine.specs.declared.StepAnswer.TheVariants.{Continue, Debug};

use crate::operands::{get, get_after};
use crate::{Move, StepAnswer};
use base::Refusal;
use instruction::Register;
use memory::Changes;

// Nothing changes: PC gets what it has.
pub fn unmoved(s: &[u16; 8], answer: StepAnswer) -> Move
    ensures { Moves s.now (Ok result) (λ g. plans (is answer) g Nothing) }
{
    let pc = get(s, Register::PC);
    Move {
        answer,
        register: Register::PC,
        value: pc,
        pc,
        changes: Changes::Nothing,
    }
}

fn answer(pause: bool) -> StepAnswer
    ensures { result ≡ cond pause Debug Continue }
{
    if pause {
        StepAnswer::Debug
    } else {
        StepAnswer::Continue
    }
}

// d gets v, and PC is raised: also where it is d. Where it can't be, the step is refused.
#[tactic(auto, unfolding(crate::specs::Plan::raised, crate::specs::Plan::finished))]
fn pause_or_next(
    s: &[u16; 8],
    pause: bool,
    d: Register,
    v: u16,
    c: Changes,
) -> Result<Move, Refusal>
    ensures { Moves s.now result (λ g. finished g (is (next (cond pause Debug Continue) (put g d v) c))) }
{
    let pc = base::raised_pc(get_after(*s, d, v, Register::PC)).ok_or(Refusal::PcOverflow)?;
    Ok(Move {
        answer: answer(pause),
        register: d,
        value: v,
        pc,
        changes: c,
    })
}

pub fn go_on(s: &[u16; 8], d: Register, v: u16, c: Changes) -> Result<Move, Refusal>
    ensures { Moves s.now result (λ g. finished g (is (next Continue (put g d v) c))) }
{
    pause_or_next(s, false, d, v, c)
}

// Nothing but PC.
pub fn stay(s: &[u16; 8], pause: bool, c: Changes) -> Result<Move, Refusal>
    ensures { Moves s.now result (λ g. finished g (is (next (cond pause Debug Continue) g c))) }
{
    pause_or_next(s, pause, Register::PC, get(s, Register::PC), c)
}

// d gets v, and PC its own number, which is not raised.
#[tactic(auto, unfolding(crate::specs::Plan::finished))]
pub fn land(s: &[u16; 8], d: Register, v: u16, pc: u16) -> Move
    ensures { Moves s.now (Ok result) (λ g. finished g (is (jump (put (put g d v) PC pc)))) }
{
    Move {
        answer: StepAnswer::Continue,
        register: d,
        value: v,
        pc,
        changes: Changes::Nothing,
    }
}

// What an operator came to goes into d.
#[tactic(auto, unfolding(crate::specs::Acts::result_of, crate::specs::Plan::finished))]
pub fn settle(
    s: &[u16; 8],
    d: Register,
    x: Result<u16, Refusal>,
    c: Changes,
) -> Result<Move, Refusal>
    ensures { Moves s.now result (λ g. finished g (result_of g d c (told x))) }
{
    let v = x?;
    go_on(s, d, v, c)
}
