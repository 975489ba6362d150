// What stands after a mnemonic, from the space on.
ghost use Rattle.std.specs.Prelude.{◌≡◌};
ghost use Rattle.printer.specs.Line.{added};
ghost use Rattle.printer.specs.Text.{operand_of, one, pair, three, bracketed, shifted, turned, address_of, addressed};

use crate::lines::Line;
use crate::names::register_name;
use instruction::{Edition, Operand, Register};

impl Line {
    // A register's name, or `#` and the number.
    #[tactic(auto, using(crate::proofs::LineLaws::joined), unfolding(crate::specs::Text::operand_of))]
    fn operand(&mut self, o: Operand)
        ensures { self.new.text.items ≡ added self.old.text.items (operand_of o) }
    {
        match o {
            Operand::Reg(r) => self.add(register_name(r).letters()),
            Operand::Imm(v) => self.immediate(v),
        }
    }

    // An operand alone.
    #[tactic(auto, using(crate::proofs::LineLaws::joined), unfolding(crate::specs::Text::one))]
    pub(crate) fn one(&mut self, o: Operand)
        ensures { self.new.text.items ≡ added self.old.text.items (one o) }
    {
        self.add(b" ");
        self.operand(o);
    }

    // A register and an operand.
    #[tactic(auto, using(crate::proofs::LineLaws::joined), unfolding(crate::specs::Text::pair))]
    pub(crate) fn pair(&mut self, r: Register, o: Operand)
        ensures { self.new.text.items ≡ added self.old.text.items (pair r o) }
    {
        self.add(b" ");
        self.add(register_name(r).letters());
        self.add(b", ");
        self.operand(o);
    }

    // Three registers.
    #[tactic(auto, using(crate::proofs::LineLaws::joined), unfolding(crate::specs::Text::three, crate::specs::Text::operand_of))]
    pub(crate) fn three(&mut self, d: Register, a: Register, b: Register)
        ensures { self.new.text.items ≡ added self.old.text.items (three d a b) }
    {
        self.pair(d, Operand::Reg(a));
        self.add(b", ");
        self.add(register_name(b).letters());
    }

    // Two numbers in brackets.
    #[tactic(auto, using(crate::proofs::LineLaws::joined), unfolding(crate::specs::Text::bracketed))]
    fn bracketed(&mut self, first: u16, second: u16)
        ensures { self.new.text.items ≡ added self.old.text.items (bracketed first second) }
    {
        self.add(b"[");
        self.immediate(first);
        self.add(b" ");
        self.immediate(second);
        self.add(b"]");
    }

    // A register and two numbers.
    #[tactic(auto, using(crate::proofs::LineLaws::joined), unfolding(crate::specs::Text::shifted))]
    fn shifted(&mut self, r: Register, first: u16, second: u16)
        ensures { self.new.text.items ≡ added self.old.text.items (shifted r first second) }
    {
        self.add(b" ");
        self.add(register_name(r).letters());
        self.add(b", ");
        self.bracketed(first, second);
    }

    // A register, and in the edition's order the amount and the immediate.
    #[tactic(auto, using(crate::proofs::LineLaws::joined), unfolding(crate::specs::Text::turned))]
    pub(crate) fn turned(&mut self, e: Edition, r: Register, amount: u8, imm: u16)
        ensures { self.new.text.items ≡ added self.old.text.items (turned e r amount imm) }
    {
        match e {
            Edition::First => self.shifted(r, amount as u16, imm),
            Edition::Second => self.shifted(r, imm, amount as u16),
        }
    }

    // An address register, with its shift where that is not 0.
    #[tactic(auto, using(crate::proofs::LineLaws::joined), unfolding(crate::specs::Text::address_of))]
    fn address(&mut self, a: Register, shift: u8)
        ensures { self.new.text.items ≡ added self.old.text.items (address_of a shift) }
    {
        if shift == 0 {
            self.add(register_name(a).letters());
            return;
        }
        self.add(b"[");
        self.add(register_name(a).letters());
        self.add(b" ");
        self.immediate(shift as u16);
        self.add(b"]");
    }

    // A register and an address.
    #[tactic(auto, using(crate::proofs::LineLaws::joined), unfolding(crate::specs::Text::addressed))]
    pub(crate) fn addressed(&mut self, r: Register, a: Register, shift: u8)
        ensures { self.new.text.items ≡ added self.old.text.items (addressed r a shift) }
    {
        self.add(b" ");
        self.add(register_name(r).letters());
        self.add(b", ");
        self.address(a, shift);
    }
}
