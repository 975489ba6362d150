// Finding the row that a token spells, in either case.
ghost use Rattle.std.specs.Prelude.{◌≡◌};
ghost use Rattle.mnemonics.specs.Mnemonics.{kind_of};

use crate::Kind;
use crate::rows::table;

// The kind of the row that the token spells, in either case, if it spells one.
pub fn kind_of(token: &[u8]) -> Option<Kind>
    ensures { result ≡ kind_of token.now }
{
    table()
        .iter()
        .find(|row| row.0.letters().eq_ignore_ascii_case(token))
        .map(|row| row.1)
}
