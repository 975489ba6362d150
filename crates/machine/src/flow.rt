// Jumps, call and return: they set PC, and it is not raised.
ghost use Rattle.std.specs.Prelude.{◌≡◌};
ghost use Rattle.machine.specs.Acts as act;
ghost use Rattle.machine.specs.Moves.{Moves};
ghost use Rattle.machine.specs.Plan.{finished};

use crate::Move;
use crate::operands::{flag, get, mark, operand, operand_after};
use crate::plans::{land, stay};
use base::Refusal;
use instruction::{Operand, Register};
use memory::Changes;

pub fn jmp(s: &[u16; 8], o: Operand) -> Move
    ensures { Moves s.now (Ok result) (λ g. finished g (act.jmp g o)) }
{
    let v = operand(s, o);
    land(s, Register::PC, v, v)
}

// The flag that it looks at is cleared before its operand is read.
#[tactic(auto, unfolding(crate::specs::Acts::cond_jmp, crate::specs::Acts::jmp, crate::specs::Acts::marked))]
pub fn cond_jmp(s: &[u16; 8], o: Operand) -> Result<Move, Refusal>
    ensures { Moves s.now result (λ g. finished g (act.cond_jmp g o)) }
{
    if flag(s, 3) {
        let v = mark(s, false);
        let pc = operand_after(*s, Register::FLAGS, v, o);
        Ok(land(s, Register::FLAGS, v, pc))
    } else {
        stay(s, false, Changes::Nothing)
    }
}

#[tactic(auto, unfolding(crate::specs::Acts::call, crate::specs::Plan::finished))]
fn call(s: &[u16; 8], address: u16) -> Result<Move, Refusal>
    ensures { Moves s.now result (λ g. finished g (act.call g address)) }
{
    let n = base::raised_pc(get(s, Register::PC)).ok_or(Refusal::PcOverflow)?;
    Ok(land(s, Register::M, n, address))
}

pub fn call_ret(s: &[u16; 8], ret: bool, address: u16) -> Result<Move, Refusal>
    ensures { Moves s.now result (λ g. finished g (act.call_ret g ret address)) }
{
    if ret {
        let v = get(s, Register::M);
        Ok(land(s, Register::PC, v, v))
    } else {
        call(s, address)
    }
}
