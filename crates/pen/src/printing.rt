// The text of an instruction.
ghost use Rattle.printer.specs.Text.{text_in};
ghost use Rattle.pen.specs.Written.{Writes};

use crate::writing::Pen;
use instruction::{Edition, Instruction};
use printer::text;

impl<'a> Pen<'a> {
    pub fn put_text(&mut self, e: Edition, i: Instruction)
        ensures { Writes self.old self.new (text_in e i) }
    {
        self.put_all(text(e, i).text.as_slice());
    }
}
