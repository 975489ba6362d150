// Numbers in decimal, and in four upper-case hex digits.
ghost use Rattle.std.specs.Prelude.{◌≡◌, ◌%◌};
ghost use Rattle.pen.specs.Numbers.{hex_digit, hex, decimal, two_numbers};
ghost use Rattle.pen.specs.Written.{Writes};

use crate::writing::Pen;

// The last digit. By hand: `io::hex` writes small letters, and what `{:X}` writes is known only where it answers Ok.
fn hex_digit(n: u32) -> u8
    ensures { result ≡ hex_digit (n % 16) }
{
    let d = (n % 16) as u8;
    if d < 10 { 48 + d } else { 55 + d }
}

impl<'a> Pen<'a> {
    #[tactic(auto, unfolding(crate::specs::Numbers::hex))]
    pub fn hex(&mut self, n: u32)
        ensures { Writes self.old self.new (hex n) }
    {
        let digits = [
            hex_digit(n / 4096),
            hex_digit(n / 256),
            hex_digit(n / 16),
            hex_digit(n),
        ];
        self.put_all(&digits);
    }

    #[tactic(auto, unfolding(crate::specs::Numbers::decimal))]
    pub fn decimal(&mut self, n: usize)
        ensures { Writes self.old self.new (decimal n) }
    {
        self.put_all(printer::decimal(n).text.as_slice());
    }
    // A line that says two numbers.
    #[tactic(auto, using(crate::proofs::PenLaws::joined), unfolding(crate::specs::Numbers::two_numbers))]
    pub fn two_numbers(&mut self, first: &[u8], n: usize, second: &[u8], m: usize)
        ensures { Writes self.old self.new (two_numbers first.now n second.now m) }
    {
        self.put_all(first);
        self.decimal(n);
        self.put_all(second);
        self.decimal(m);
        self.put(b'\n');
    }
}
