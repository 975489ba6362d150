// What a line says, where its label, if it names one, is known already.
ghost use Rattle.std.specs.Prelude.{◌≡◌, List, ℕ};
ghost use Rattle.base.specs.Told.{told};
ghost use Rattle.text.specs.Tokens.{token_at};
ghost use Rattle.labels.specs.declared.Label.{Label};
ghost use Rattle.labels.specs.Labels.{find};
ghost use Rattle.single.specs.Single.{known, single};

use base::Refusal;
use instruction::Instruction;
use labels::{Found, Label};
use parser::{Parsed, Reference, parse, resolved};
use reader::foreign_line;
use table::find;
use text::token;

// A reference to a name.
fn referred(reference: Reference, f: Option<Found>) -> Result<Instruction, Refusal>
    ensures { told result ≡ known reference f }
{
    let found = f.ok_or(Refusal::UnresolvedLabel)?;
    Ok(resolved(reference, found.address))
}

// The line, where f was found of its second token.
fn parse_known(line: &[u8], f: Option<Found>) -> Result<Instruction, Refusal>
    ensures { (text : List ℕ) → (labels : List Label) → f ≡ find text (token_at line.now 1) labels → told result ≡ single line.now text labels }
{
    if foreign_line(line) != 0 {
        return Err(Refusal::NotAscii);
    }
    match parse(line)? {
        Parsed::Is(i) => Ok(i),
        Parsed::Refers(r) => referred(r, f),
    }
}

// The first of equal names in the table counts, and an entry running past the text names nothing.
pub fn parse_assembly_line(
    line: &[u8],
    text: &[u8],
    table: &[Label],
) -> Result<Instruction, Refusal>
    ensures { told result ≡ single line.now text.now table.now }
{
    parse_known(line, find(text, table, table.len(), token(line, 1)))
}
