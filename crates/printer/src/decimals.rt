// Numbers in decimal.
ghost use Rattle.std.specs.Prelude.{◌≡◌};
ghost use Rattle.printer.specs.Line.{added};
ghost use Rattle.printer.specs.Text.{digits, immediate_of};

use crate::lines::Line;

impl Line {
    // At most twenty digits.
    #[tactic(auto, using(crate::proofs::DecimalLaws::library_digits))]
    pub(crate) fn decimal(&mut self, n: usize)
        ensures { self.new.text.items ≡ added self.old.text.items (digits 20 n) }
    {
        let mut text = [0; 20];
        let length = io::decimal(n as u64, &mut text);
        self.add(&text[..length]);
    }

    #[tactic(auto, using(crate::proofs::LineLaws::joined, crate::proofs::DecimalLaws::decimal_twenty), unfolding(crate::specs::Text::immediate_of))]
    pub(crate) fn immediate(&mut self, n: u16)
        ensures { self.new.text.items ≡ added self.old.text.items (immediate_of n) }
    {
        self.add(b"#");
        self.decimal(n as usize);
    }
}

// A number in decimal, in a line of its own.
#[tactic(auto, using(crate::proofs::DecimalLaws::digits_whole))]
pub fn decimal(n: usize) -> Line
    ensures { result.text.items ≡ digits 20 n }
{
    let mut l = Line::empty();
    l.decimal(n);
    l
}
