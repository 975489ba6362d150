// An instruction from fields: its row in document 01's table, and four numbers in the row's order. An operand is two of them, 1 and a
// register or 0 and a number, and one that the row does not have is 0. A number may exceed the field's width in the word.
use crate::line::Fields;
use instruction::{
    Instruction, Operand, Register, arith_of, arithmetic_of, compare_of, register_at,
};

// The instruction that the next five fields say.
pub fn instruction(fields: &mut Fields) -> Option<Instruction> {
    let (instruction, unused) = match fields.number(11)? {
        0 => (Instruction::Noop, 4),
        1 => (Instruction::Mov(register(fields)?, operand(fields)?), 1),
        2 => (mov_shift(fields)?, 0),
        3 => (arith(fields)?, 0),
        4 => (ldr_str(fields)?, 0),
        5 => (Instruction::CondJmp(operand(fields)?), 2),
        6 => (Instruction::Jmp(operand(fields)?), 2),
        7 => (cmp(fields)?, 0),
        8 => (ldb_stb(fields)?, 0),
        9 => (Instruction::Cpy(register(fields)?, register(fields)?), 2),
        10 => (arith_reg_reg(fields)?, 0),
        _ => (Instruction::CallRet(fields.read()?, fields.read()?), 2),
    };
    for _ in 0..unused {
        fields.number(0)?;
    }
    Some(instruction)
}

// A number up to 7 is the three lowest bits of its word.
fn register(fields: &mut Fields) -> Option<Register> {
    Some(register_at(fields.number(7)? as u16, 0))
}

fn operand(fields: &mut Fields) -> Option<Operand> {
    if fields.read()? {
        Some(Operand::Reg(register(fields)?))
    } else {
        Some(Operand::Imm(fields.read()?))
    }
}

fn mov_shift(fields: &mut Fields) -> Option<Instruction> {
    Some(Instruction::MovShift(
        register(fields)?,
        fields.read()?,
        fields.read()?,
        fields.read()?,
    ))
}

fn arith(fields: &mut Fields) -> Option<Instruction> {
    let target = register(fields)?;
    let operator = arith_of(fields.number(3)? as u16);
    Some(Instruction::Arith(target, operand(fields)?, operator))
}

// Register, address register, whether it stores, and the shift.
fn transfer(fields: &mut Fields) -> Option<(Register, Register, bool, u8)> {
    Some((
        register(fields)?,
        register(fields)?,
        fields.read()?,
        fields.read()?,
    ))
}

fn ldr_str(fields: &mut Fields) -> Option<Instruction> {
    let (register, address, store, shift) = transfer(fields)?;
    Some(Instruction::LdrStr(register, address, store, shift))
}

fn ldb_stb(fields: &mut Fields) -> Option<Instruction> {
    let (register, address, store, shift) = transfer(fields)?;
    Some(Instruction::LdbStb(register, address, store, shift))
}

fn cmp(fields: &mut Fields) -> Option<Instruction> {
    let first = register(fields)?;
    let operator = compare_of(fields.number(5)? as u16);
    Some(Instruction::Cmp(first, operand(fields)?, operator))
}

fn arith_reg_reg(fields: &mut Fields) -> Option<Instruction> {
    let target = register(fields)?;
    let operator = arithmetic_of(fields.number(6)? as u16);
    Some(Instruction::ArithRegReg(target, register(fields)?, register(fields)?, operator))
}
