// The refusals: document 01's in its order, then document 02's. specs/Numbers.antt gives the number of each.
ghost use Rattle.std.specs.Prelude.{◌≡◌};
ghost use Rattle.base.specs.Numbers.{number_of};

#[derive(Clone, Copy, Debug, PartialEq, Eq)]
pub enum Refusal {
    BadState,
    FetchUnmapped,
    AddressOverflow,
    BadOpcode,
    BadCompare,
    BadArith,
    ArithOverflow,
    DivideByZero,
    PcOverflow,
    NothingToUndo,
    BadJournal,
    RangeOverflow,
    Overlap,
    TableFull,
    WriteFailed,
    TooLong,
    NoDeviceRoom,
    BadRegister,
    NoRoom,
    InvalidRegister,
    InvalidOperands,
    InvalidInstruction,
    InvalidFormat,
    InvalidImmediate,
    UnresolvedLabel,
    NotAscii,
    TooManyLabels,
    TooManyFixups,
    ProgramFull,
    FieldTooWide,
    BadBlock,
    NotDecodable,
    NoText,
}

// The number that the documents give a refusal. A match and no discriminants: those are never the same, so that the edit which
// gives two refusals one number would not compile.
impl From<Refusal> for u8 {
    ghost from_gives = { λ r n. n ≡ number_of r };

    fn from(r: Refusal) -> u8 {
        match r {
            Refusal::BadState => 1,
            Refusal::FetchUnmapped => 2,
            Refusal::AddressOverflow => 3,
            Refusal::BadOpcode => 4,
            Refusal::BadCompare => 5,
            Refusal::BadArith => 6,
            Refusal::ArithOverflow => 7,
            Refusal::DivideByZero => 8,
            Refusal::PcOverflow => 9,
            Refusal::NothingToUndo => 10,
            Refusal::BadJournal => 11,
            Refusal::RangeOverflow => 12,
            Refusal::Overlap => 13,
            Refusal::TableFull => 14,
            Refusal::WriteFailed => 15,
            Refusal::TooLong => 16,
            Refusal::NoDeviceRoom => 17,
            Refusal::BadRegister => 18,
            Refusal::NoRoom => 19,
            Refusal::InvalidRegister => 20,
            Refusal::InvalidOperands => 21,
            Refusal::InvalidInstruction => 22,
            Refusal::InvalidFormat => 23,
            Refusal::InvalidImmediate => 24,
            Refusal::UnresolvedLabel => 25,
            Refusal::NotAscii => 26,
            Refusal::TooManyLabels => 27,
            Refusal::TooManyFixups => 28,
            Refusal::ProgramFull => 29,
            Refusal::FieldTooWide => 30,
            Refusal::BadBlock => 31,
            Refusal::NotDecodable => 32,
            Refusal::NoText => 33,
        }
    }
}
