// A word acted on: its low four bits pick the function of its instruction, which takes its fields from the word.
// No Instruction is made of the word and matched again: that, with a Machine handed on whole, was nearly half of a step's time.
// That it comes to the same is proved: the contracts say what is planned for the instruction that `instruction::decode` finds.
ghost use Rattle.std.specs.Prelude.{◌≡◌};
ghost use Rattle.fields.specs.Fields.{field_of};
ghost use Rattle.instruction.specs.Decode.{decode};
ghost use Rattle.memory.specs.Bytes.{Lent, lent};
ghost use Rattle.map.specs.declared.Map.{Map};
ghost use Rattle.machine.specs.declared.Mode.{Mode};
ghost use Rattle.machine.specs.Moves.{Moves};
ghost use Rattle.machine.specs.Plan.{decoded};
ghost use Rattle.machine.specs.States.{machine};

use crate::actions::{arith, arith_reg_reg, cmp, mov, mov_shift, noop};
use crate::flow::{call_ret, cond_jmp, jmp};
use crate::transfers::{cpy, ldb_stb, ldr_str};
use crate::{Mode, Move};
use base::Refusal;
use fields::field;
use instruction::{
    arith_of, arithmetic_of, bit_at, byte_at, compare_of, jumps_always, operand_at, register_at,
};
use map::Map;

// Three rows of the table in which another field decides too. They use registers alone, so that their contracts hold of any mode,
// map and bytes.
fn act_on_cond_jmp(s: &[u16; 8], w: u16) -> Result<Move, Refusal>
    requires { field_of w 0 4 ≡ 5 }
    ensures { (mode : Mode) (map : Map) (b : Lent) → Moves s.now result (λ g. decoded (machine g mode map) b (decode w)) }
{
    let o = operand_at(w, 4, 11);
    if jumps_always(o) {
        Ok(jmp(s, o))
    } else {
        cond_jmp(s, o)
    }
}

fn act_on_cmp(s: &[u16; 8], w: u16) -> Result<Move, Refusal>
    requires { field_of w 0 4 ≡ 7 }
    ensures { (mode : Mode) (map : Map) (b : Lent) → Moves s.now result (λ g. decoded (machine g mode map) b (decode w)) }
{
    let k = field(w, 7, 3);
    if k < 6 {
        cmp(s, register_at(w, 4), operand_at(w, 10, 5), compare_of(k))
    } else {
        Err(Refusal::BadCompare)
    }
}

fn act_on_arith_reg_reg(s: &[u16; 8], w: u16) -> Result<Move, Refusal>
    requires { field_of w 0 4 ≡ 10 }
    ensures { (mode : Mode) (map : Map) (b : Lent) → Moves s.now result (λ g. decoded (machine g mode map) b (decode w)) }
{
    let k = field(w, 7, 3);
    if k < 7 {
        arith_reg_reg(
            s,
            register_at(w, 4),
            register_at(w, 10),
            register_at(w, 13),
            arithmetic_of(k),
        )
    } else {
        Err(Refusal::BadArith)
    }
}

// Each row of the table, 0 to 11, with the fields that it names.
pub fn act_on_word(
    s: &[u16; 8],
    mode: Mode,
    map: Map,
    mem: &[u8],
    dev: &[u8],
    w: u16,
) -> Result<Move, Refusal>
    ensures { Moves s.now result (λ g. decoded (machine g mode map) (lent mem.now dev.now) (decode w)) }
{
    let d = register_at(w, 4);
    match field(w, 0, 4) {
        0 => noop(mode, s),
        1 => mov(s, d, operand_at(w, 7, 8)),
        2 => mov_shift(s, d, byte_at(w, 7, 3), bit_at(w, 10), field(w, 11, 5)),
        3 => {
            let op = arith_of(field(w, 7, 2));
            arith(map, mem, dev, s, d, operand_at(w, 9, 6), op)
        }
        4 => {
            let a = register_at(w, 7);
            ldr_str(map, mem, dev, s, d, a, bit_at(w, 10), byte_at(w, 11, 5))
        }
        5 => act_on_cond_jmp(s, w),
        6 => Ok(jmp(s, operand_at(w, 4, 11))),
        7 => act_on_cmp(s, w),
        8 => {
            let a = register_at(w, 7);
            ldb_stb(map, mem, dev, s, d, a, bit_at(w, 10), byte_at(w, 11, 5))
        }
        9 => cpy(map, mem, dev, s, d, register_at(w, 7)),
        10 => act_on_arith_reg_reg(s, w),
        11 => call_ret(s, bit_at(w, 4), field(w, 5, 11)),
        _ => Err(Refusal::BadOpcode),
    }
}
