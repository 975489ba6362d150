// The word of an instruction: a sum of fields, each masked to its width and placed where the table has it.
// The sums are those of the definition, term by term: a function for each row of the table, also where two rows have one shape.
ghost use Rattle.std.specs.Prelude.{◌≡◌, ◌+◌, ◌<◌};
ghost use Rattle.fields.specs.Fields.{place_of};
ghost use Rattle.instruction.specs.Encode.{register_in, bit, mode, value, encode};
ghost use Rattle.instruction.specs.declared.Instruction.TheVariants.{Mov, MovShift, Arith, ArithRegReg, Cpy, Cmp, CallRet};

use crate::{ArithOp, ArithmeticOp, CompareOp, Instruction, Operand, Register};
use fields::place;

// The bit that says that an operand is a register.
fn mode_of(o: Operand) -> u16
    ensures { result ≡ mode o }
{
    match o {
        Operand::Reg(_) => 1,
        Operand::Imm(_) => 0,
    }
}

// The number that stands after it. A register's is masked to the immediate's width, which its three bits never exceed.
fn value_of(o: Operand) -> u16
    ensures { result ≡ value o }
{
    match o {
        Operand::Reg(r) => u16::from(r),
        Operand::Imm(v) => v,
    }
}

fn mov_word(d: Register, o: Operand) -> u16
    ensures { result ≡ encode (Mov d o) }
{
    1 + place(u16::from(d), 4, 3) + place(mode_of(o), 7, 1) + place(value_of(o), 8, 8)
}

fn mov_shift_word(r: Register, amount: u8, left: bool, v: u16) -> u16
    ensures { result ≡ encode (MovShift r amount left v) }
{
    2 + place(u16::from(r), 4, 3)
        + place(amount as u16, 7, 3)
        + place(u16::from(left), 10, 1)
        + place(v, 11, 5)
}

fn arith_word(d: Register, o: Operand, k: ArithOp) -> u16
    ensures { result ≡ encode (Arith d o k) }
{
    3 + place(u16::from(d), 4, 3)
        + place(u16::from(k), 7, 2)
        + place(mode_of(o), 9, 1)
        + place(value_of(o), 10, 6)
}

// LdrStr and LdbStb have the same fields and differ in their low four bits, 4 and 8.
fn transfer_word(op: u16, r: Register, a: Register, store: bool, shift: u8) -> u16
    requires { op < 16 }
    ensures { result ≡ op + register_in r 4 + register_in a 7 + place_of (bit store) 10 1 + place_of shift 11 5 }
{
    op + place(u16::from(r), 4, 3)
        + place(u16::from(a), 7, 3)
        + place(u16::from(store), 10, 1)
        + place(shift as u16, 11, 5)
}

// So do the two jumps, 5 and 6.
fn jump_word(op: u16, o: Operand) -> u16
    requires { op < 16 }
    ensures { result ≡ op + place_of (mode o) 4 1 + place_of (value o) 5 11 }
{
    op + place(mode_of(o), 4, 1) + place(value_of(o), 5, 11)
}

fn cmp_word(r: Register, o: Operand, k: CompareOp) -> u16
    ensures { result ≡ encode (Cmp r o k) }
{
    7 + place(u16::from(r), 4, 3)
        + place(u16::from(k), 7, 3)
        + place(mode_of(o), 10, 1)
        + place(value_of(o), 11, 5)
}

fn cpy_word(s: Register, t: Register) -> u16
    ensures { result ≡ encode (Cpy s t) }
{
    9 + place(u16::from(s), 4, 3) + place(u16::from(t), 7, 3)
}

fn arith_reg_reg_word(d: Register, a: Register, b: Register, k: ArithmeticOp) -> u16
    ensures { result ≡ encode (ArithRegReg d a b k) }
{
    10 + place(u16::from(d), 4, 3)
        + place(u16::from(k), 7, 3)
        + place(u16::from(a), 10, 3)
        + place(u16::from(b), 13, 3)
}

fn call_ret_word(ret: bool, address: u16) -> u16
    ensures { result ≡ encode (CallRet ret address) }
{
    11 + place(u16::from(ret), 4, 1) + place(address, 5, 11)
}

pub fn encode(i: Instruction) -> u16
    ensures { result ≡ encode i }
{
    match i {
        Instruction::Noop => 0,
        Instruction::Mov(d, o) => mov_word(d, o),
        Instruction::MovShift(r, amount, left, v) => mov_shift_word(r, amount, left, v),
        Instruction::Arith(d, o, k) => arith_word(d, o, k),
        Instruction::ArithRegReg(d, a, b, k) => arith_reg_reg_word(d, a, b, k),
        Instruction::LdrStr(r, a, store, shift) => transfer_word(4, r, a, store, shift),
        Instruction::LdbStb(r, a, store, shift) => transfer_word(8, r, a, store, shift),
        Instruction::Cpy(s, t) => cpy_word(s, t),
        Instruction::Jmp(o) => jump_word(6, o),
        Instruction::CondJmp(o) => jump_word(5, o),
        Instruction::Cmp(r, o, k) => cmp_word(r, o, k),
        Instruction::CallRet(ret, address) => call_ret_word(ret, address),
    }
}
