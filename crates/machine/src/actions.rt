// Instructions that move, reckon and compare.
ghost use Rattle.std.specs.Prelude.{◌≡◌};
ghost use Rattle.instruction.specs.declared.ArithOp.{ArithOp};
ghost use Rattle.base.specs.Told.{told};
ghost use Rattle.memory.specs.Bytes.{lent};
ghost use Rattle.machine.specs.Acts as act;
ghost use Rattle.machine.specs.Moves.{Moves, regs};
ghost use Rattle.machine.specs.Plan.{finished};

use crate::operands::{flag, get, mark, operand};
use crate::plans::{go_on, settle, stay};
use crate::{Mode, Move};
use base::Refusal;
use instruction::{ArithOp, ArithmeticOp, CompareOp, Operand, Register};
use map::Map;
use memory::Changes;

// Nothing but PC.
#[tactic(auto, unfolding(crate::specs::Acts::noop))]
pub fn noop(mode: Mode, s: &[u16; 8]) -> Result<Move, Refusal>
    ensures { Moves s.now result (λ g. finished g (act.noop mode g)) }
{
    stay(s, mode.debug, Changes::Nothing)
}

#[tactic(auto, unfolding(crate::specs::Acts::mov))]
pub fn mov(s: &[u16; 8], d: Register, o: Operand) -> Result<Move, Refusal>
    ensures { Moves s.now result (λ g. finished g (act.mov g d o)) }
{
    go_on(s, d, operand(s, o), Changes::Nothing)
}

#[tactic(auto, unfolding(crate::specs::Acts::mov_shift))]
pub fn mov_shift(
    s: &[u16; 8],
    d: Register,
    amount: u8,
    left: bool,
    imm: u16,
) -> Result<Move, Refusal>
    ensures { Moves s.now result (λ g. finished g (act.mov_shift g d amount left imm)) }
{
    let v = arithmetic::moved(get(s, d), amount, left, imm);
    go_on(s, d, v, Changes::Nothing)
}

// Where a remainder goes: its low byte at the old SP, if that takes a store.
#[tactic(auto, unfolding(crate::specs::Acts::at_old_sp))]
fn at_old_sp(m: Map, mem: &[u8], dev: &[u8], s: &[u16; 8], x: Result<u16, Refusal>) -> Changes
    ensures { result ≡ act.at_old_sp m (lent mem.now dev.now) (regs s.now) (told x) }
{
    match x {
        Ok(v) => { memory::decide_byte(m, mem, dev, get(s, Register::SP), base::low(v)).changes }
        Err(_) => Changes::Nothing,
    }
}

#[tactic(auto, unfolding(crate::specs::Acts::kept))]
fn kept_by_div(m: Map, mem: &[u8], dev: &[u8], s: &[u16; 8], x: u16, y: u16) -> Changes
    ensures { result ≡ act.kept m (lent mem.now dev.now) (regs s.now) ArithOp.Div x y }
{
    if flag(s, 1) {
        at_old_sp(m, mem, dev, s, arithmetic::remainder(x, y))
    } else {
        Changes::Nothing
    }
}

// What Arith stores beside its result: a division's remainder, where FLAGS bit 1 asks for it.
#[tactic(auto, unfolding(crate::specs::Acts::kept))]
fn kept(m: Map, mem: &[u8], dev: &[u8], s: &[u16; 8], op: ArithOp, x: u16, y: u16) -> Changes
    ensures { result ≡ act.kept m (lent mem.now dev.now) (regs s.now) op x y }
{
    match op {
        ArithOp::Add => Changes::Nothing,
        ArithOp::Sub => Changes::Nothing,
        ArithOp::Mul => Changes::Nothing,
        ArithOp::Div => kept_by_div(m, mem, dev, s, x, y),
    }
}

#[tactic(auto, unfolding(crate::specs::Acts::arith))]
pub fn arith(
    m: Map,
    mem: &[u8],
    dev: &[u8],
    s: &[u16; 8],
    d: Register,
    o: Operand,
    op: ArithOp,
) -> Result<Move, Refusal>
    ensures { Moves s.now result (λ g. finished g (act.arith m (lent mem.now dev.now) g d o op)) }
{
    let x = get(s, d);
    let y = operand(s, o);
    let c = kept(m, mem, dev, s, op, x, y);
    settle(s, d, arithmetic::arith(op, x, y), c)
}

#[tactic(auto, unfolding(crate::specs::Acts::arith_reg_reg))]
pub fn arith_reg_reg(
    s: &[u16; 8],
    d: Register,
    x: Register,
    y: Register,
    op: ArithmeticOp,
) -> Result<Move, Refusal>
    ensures { Moves s.now result (λ g. finished g (act.arith_reg_reg g d x y op)) }
{
    let v = arithmetic::arithmetic(op, get(s, x), get(s, y));
    settle(s, d, v, Changes::Nothing)
}

#[tactic(auto, unfolding(crate::specs::Acts::cmp, crate::specs::Acts::marked))]
pub fn cmp(s: &[u16; 8], r: Register, o: Operand, op: CompareOp) -> Result<Move, Refusal>
    ensures { Moves s.now result (λ g. finished g (act.cmp g r o op)) }
{
    let holds = arithmetic::compare(op, get(s, r), operand(s, o));
    go_on(s, Register::FLAGS, mark(s, holds), Changes::Nothing)
}
