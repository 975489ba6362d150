// The one constant table of the registers' names.
ghost use Rattle.std.specs.Prelude.{◌≡◌, map};
ghost use Rattle.mnemonics.specs.Tables.{row_of};
ghost use Rattle.parser.specs.Operands.{register_names};

use base::Name;
use instruction::Register;

// A row: the name, and the register.
pub type RegisterName = (Name, Register);

static REGISTERS: [RegisterName; 8] = [
    (Name(1, *b"A\0\0\0\0"), Register::A),
    (Name(1, *b"B\0\0\0\0"), Register::B),
    (Name(1, *b"C\0\0\0\0"), Register::C),
    (Name(1, *b"M\0\0\0\0"), Register::M),
    (Name(2, *b"SP\0\0\0"), Register::SP),
    (Name(2, *b"PC\0\0\0"), Register::PC),
    (Name(2, *b"BP\0\0\0"), Register::BP),
    (Name(5, *b"FLAGS"), Register::FLAGS),
];

// The table, which is never copied.
#[tactic(auto, unfolding(crate::specs::Operands::register_names))]
pub fn register_names() -> &'static [RegisterName]
    ensures { map row_of result.now ≡ register_names }
{
    &REGISTERS
}
