// The text of an instruction.
ghost use Rattle.std.specs.Prelude.{◌≡◌};
ghost use Rattle.printer.specs.Line.{added};
ghost use Rattle.printer.specs.Text.{text_in, call_text};

use crate::lines::Line;
use crate::names::{arith_name, arithmetic_name, byte_name, compare_name, shift_name, word_name};
use instruction::{Edition, Instruction, Operand};

impl Line {
    #[tactic(auto, using(crate::proofs::LineLaws::joined), unfolding(crate::specs::Text::call_text))]
    fn call(&mut self, ret: bool, a: u16)
        ensures { self.new.text.items ≡ added self.old.text.items (call_text ret a) }
    {
        if ret {
            self.add(b"RET");
            return;
        }
        self.add(b"CALL");
        self.one(Operand::Imm(a));
    }

    #[tactic(auto, using(crate::proofs::LineLaws::joined), unfolding(crate::specs::Text::text_in))]
    fn instruction(&mut self, e: Edition, i: Instruction)
        ensures { self.new.text.items ≡ added self.old.text.items (text_in e i) }
    {
        match i {
            Instruction::Noop => self.add(b"NOOP"),
            Instruction::Mov(d, o) => {
                self.add(b"MOV");
                self.pair(d, o);
            }
            Instruction::MovShift(r, amount, left, imm) => {
                self.add(shift_name(left).letters());
                self.turned(e, r, amount, imm);
            }
            Instruction::Arith(d, o, op) => {
                self.add(arith_name(op).letters());
                self.pair(d, o);
            }
            Instruction::ArithRegReg(d, a, b, op) => {
                self.add(arithmetic_name(op).letters());
                self.three(d, a, b);
            }
            Instruction::LdrStr(r, a, store, shift) => {
                self.add(word_name(store).letters());
                self.addressed(r, a, shift);
            }
            Instruction::LdbStb(r, a, store, shift) => {
                self.add(byte_name(store).letters());
                self.addressed(r, a, shift);
            }
            Instruction::Cpy(a, b) => {
                self.add(b"CPY");
                self.pair(a, Operand::Reg(b));
            }
            Instruction::Jmp(o) => {
                self.add(b"JMP");
                self.one(o);
            }
            Instruction::CondJmp(o) => {
                self.add(b"CJP");
                self.one(o);
            }
            Instruction::Cmp(r, o, op) => {
                self.add(compare_name(op).letters());
                self.pair(r, o);
            }
            Instruction::CallRet(ret, a) => self.call(ret, a),
        }
    }
}

// The text of an instruction by an edition, in a line of its own.
#[tactic(auto, using(crate::proofs::Laws::text_whole))]
pub fn text(e: Edition, i: Instruction) -> Line
    ensures { result.text.items ≡ text_in e i }
{
    let mut l = Line::empty();
    l.instruction(e, i);
    l
}
