// The one constant table of the mnemonics: by it alone a name is read. The printer writes names of its own; that each of them finds its
// row here is a law (source/proofs/Names.antt).
ghost use Rattle.std.specs.Prelude.{◌≡◌, map};
ghost use Rattle.mnemonics.specs.Tables.{row_of};
ghost use Rattle.mnemonics.specs.Mnemonics.{rows};

use crate::Kind;
use base::Name;
use instruction::{ArithOp, ArithmeticOp, CompareOp};

// A row: the name in upper case, and the kind.
pub type Mnemonic = (Name, Kind);

static MNEMONICS: [Mnemonic; 30] = [
    (Name(3, *b"DBG\0\0"), Kind::Dbg),
    (Name(3, *b"MOV\0\0"), Kind::Mov),
    (Name(3, *b"MSL\0\0"), Kind::MovShift(true)),
    (Name(3, *b"MSR\0\0"), Kind::MovShift(false)),
    (Name(3, *b"CPY\0\0"), Kind::Copy),
    (Name(3, *b"ADD\0\0"), Kind::Arith(ArithOp::Add)),
    (Name(3, *b"SUB\0\0"), Kind::Arith(ArithOp::Sub)),
    (Name(3, *b"MUL\0\0"), Kind::Arith(ArithOp::Mul)),
    (Name(3, *b"DIV\0\0"), Kind::Arith(ArithOp::Div)),
    (Name(4, *b"ADDR\0"), Kind::ArithRegReg(ArithmeticOp::Add)),
    (Name(4, *b"SUBR\0"), Kind::ArithRegReg(ArithmeticOp::Sub)),
    (Name(4, *b"MULR\0"), Kind::ArithRegReg(ArithmeticOp::Mul)),
    (Name(4, *b"DIVR\0"), Kind::ArithRegReg(ArithmeticOp::Div)),
    (Name(4, *b"MODR\0"), Kind::ArithRegReg(ArithmeticOp::Mod)),
    (Name(4, *b"EXPR\0"), Kind::ArithRegReg(ArithmeticOp::Exp)),
    (Name(5, *b"SQRTR"), Kind::ArithRegReg(ArithmeticOp::Sqrt)),
    (Name(3, *b"LDR\0\0"), Kind::Transfer(false, false)),
    (Name(3, *b"STR\0\0"), Kind::Transfer(false, true)),
    (Name(3, *b"LDB\0\0"), Kind::Transfer(true, false)),
    (Name(3, *b"STB\0\0"), Kind::Transfer(true, true)),
    (Name(3, *b"JMP\0\0"), Kind::Jump(false)),
    (Name(3, *b"CJP\0\0"), Kind::Jump(true)),
    (Name(2, *b"EQ\0\0\0"), Kind::Compare(CompareOp::Eq)),
    (Name(3, *b"NEQ\0\0"), Kind::Compare(CompareOp::NotEq)),
    (Name(2, *b"LT\0\0\0"), Kind::Compare(CompareOp::Less)),
    (Name(3, *b"LTE\0\0"), Kind::Compare(CompareOp::LessEq)),
    (Name(2, *b"GT\0\0\0"), Kind::Compare(CompareOp::Greater)),
    (Name(3, *b"GTE\0\0"), Kind::Compare(CompareOp::GreaterEq)),
    (Name(3, *b"RET\0\0"), Kind::Ret),
    (Name(4, *b"CALL\0"), Kind::Call),
];

// The table, which is never copied.
#[tactic(auto, unfolding(crate::specs::Mnemonics::rows))]
pub fn table() -> &'static [Mnemonic]
    ensures { map row_of result.now ≡ rows }
{
    &MNEMONICS
}
