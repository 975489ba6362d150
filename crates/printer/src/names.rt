// The names of registers, and the mnemonics: a match each, since each name is of its own and stands once. They are values and no parts of
// a text, since a match between parts comes to a table of addresses, which the loader would have to write.
ghost use Rattle.std.specs.Prelude.{◌≡◌};
ghost use Rattle.base.specs.Names.{letters};
ghost use Rattle.printer.specs.Text.{register_name, arith_name, arithmetic_name, compare_name, shift_name, word_name, byte_name};

use base::Name;
use instruction::{ArithOp, ArithmeticOp, CompareOp, Register};

#[tactic(auto, unfolding(crate::specs::Text::register_name))]
pub fn register_name(r: Register) -> Name
    ensures { letters result ≡ register_name r }
{
    match r {
        Register::A => Name(1, *b"A\0\0\0\0"),
        Register::B => Name(1, *b"B\0\0\0\0"),
        Register::C => Name(1, *b"C\0\0\0\0"),
        Register::M => Name(1, *b"M\0\0\0\0"),
        Register::SP => Name(2, *b"SP\0\0\0"),
        Register::PC => Name(2, *b"PC\0\0\0"),
        Register::BP => Name(2, *b"BP\0\0\0"),
        Register::FLAGS => Name(5, *b"FLAGS"),
    }
}

#[tactic(auto, unfolding(crate::specs::Text::arith_name))]
pub fn arith_name(op: ArithOp) -> Name
    ensures { letters result ≡ arith_name op }
{
    match op {
        ArithOp::Add => Name(3, *b"ADD\0\0"),
        ArithOp::Sub => Name(3, *b"SUB\0\0"),
        ArithOp::Mul => Name(3, *b"MUL\0\0"),
        ArithOp::Div => Name(3, *b"DIV\0\0"),
    }
}

#[tactic(auto, unfolding(crate::specs::Text::arithmetic_name))]
pub fn arithmetic_name(op: ArithmeticOp) -> Name
    ensures { letters result ≡ arithmetic_name op }
{
    match op {
        ArithmeticOp::Add => Name(4, *b"ADDR\0"),
        ArithmeticOp::Sub => Name(4, *b"SUBR\0"),
        ArithmeticOp::Mul => Name(4, *b"MULR\0"),
        ArithmeticOp::Div => Name(4, *b"DIVR\0"),
        ArithmeticOp::Mod => Name(4, *b"MODR\0"),
        ArithmeticOp::Exp => Name(4, *b"EXPR\0"),
        ArithmeticOp::Sqrt => Name(5, *b"SQRTR"),
    }
}

#[tactic(auto, unfolding(crate::specs::Text::compare_name))]
pub fn compare_name(op: CompareOp) -> Name
    ensures { letters result ≡ compare_name op }
{
    match op {
        CompareOp::Eq => Name(2, *b"EQ\0\0\0"),
        CompareOp::NotEq => Name(3, *b"NEQ\0\0"),
        CompareOp::Less => Name(2, *b"LT\0\0\0"),
        CompareOp::LessEq => Name(3, *b"LTE\0\0"),
        CompareOp::Greater => Name(2, *b"GT\0\0\0"),
        CompareOp::GreaterEq => Name(3, *b"GTE\0\0"),
    }
}

#[tactic(auto, unfolding(crate::specs::Text::shift_name))]
pub fn shift_name(left: bool) -> Name
    ensures { letters result ≡ shift_name left }
{
    if left {
        Name(3, *b"MSL\0\0")
    } else {
        Name(3, *b"MSR\0\0")
    }
}

#[tactic(auto, unfolding(crate::specs::Text::word_name))]
pub fn word_name(store: bool) -> Name
    ensures { letters result ≡ word_name store }
{
    if store {
        Name(3, *b"STR\0\0")
    } else {
        Name(3, *b"LDR\0\0")
    }
}

#[tactic(auto, unfolding(crate::specs::Text::byte_name))]
pub fn byte_name(store: bool) -> Name
    ensures { letters result ≡ byte_name store }
{
    if store {
        Name(3, *b"STB\0\0")
    } else {
        Name(3, *b"LDB\0\0")
    }
}
