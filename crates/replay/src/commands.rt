// The commands, and how a line is read as one.
use crate::assembling::Assembly;
use crate::buffers::{Buffer, JOURNAL, Setup};
use crate::encodings::instruction;
use crate::line::Fields;
use crate::machines::tables;
use crate::texts::Text;
use crate::words::Words;
use instruction::Instruction;
use map::Map;

// The most bytes that most texts may have, and that a buffer to write in may have.
pub const ROOM: usize = 65_600;

// A command, with what its fields say. A list is read when it is needed.
#[derive(Clone, Copy)]
pub enum Command<'a> {
    New(Setup),
    Poke(Buffer, usize, Text<'a>),
    Regs([u16; 8]),
    Cursor(u16, u16),
    Tables(Map),
    Byte(u16),
    Word(u16),
    Put(u16, u8),
    PutWord(u16, u16),
    Protect(u16, u16),
    Device(u16, u16),
    Load(Words<'a>),
    // where, how many bytes, and into how much room
    Read(u16, u32, usize),
    Set(u16, u16),
    Step,
    Run(u32),
    Back,
    Forget,
    Decode(u16),
    // a word, and how much room its text has
    Print(u16, usize),
    Encode(Instruction),
    Assemble(Assembly<'a>),
    // a line of assembly, the text that the labels' names stand in, and the labels
    Line(Text<'a>, Text<'a>, Fields<'a>),
    Listing(Text<'a>),
    // how much room the text has, and the words that it is to say
    Text(usize, Words<'a>),
    State,
}

impl<'a> Command<'a> {
    // The command that a line says, if it says one.
    pub fn of(line: &'a [u8]) -> Option<Command<'a>> {
        let mut fields = Fields::of(line);
        let name = fields.next()?;
        match name {
            b"load" => Some(Command::Load(Words::Listed(fields))),
            b"text" => Some(Command::Text(fields.size(ROOM)?, Words::Listed(fields))),
            b"line" => Some(Command::Line(
                short_text(&mut fields)?,
                short_text(&mut fields)?,
                fields,
            )),
            _ => {
                let command = Command::named(name, &mut fields)?;
                fields.end()?;
                Some(command)
            }
        }
    }

    // A command that ends with no list.
    fn named(name: &[u8], fields: &mut Fields<'a>) -> Option<Command<'a>> {
        Some(match name {
            b"new" => Command::New(Setup::read(fields)?),
            b"poke" => Command::Poke(fields.read()?, fields.size(JOURNAL)?, fields.text()?),
            b"regs" => Command::Regs(fields.words()?),
            b"cursor" => Command::Cursor(fields.read()?, fields.read()?),
            b"tables" => Command::Tables(tables(fields)?),
            b"byte" => Command::Byte(fields.read()?),
            b"word" => Command::Word(fields.read()?),
            b"put" => Command::Put(fields.read()?, fields.read()?),
            b"putw" => Command::PutWord(fields.read()?, fields.read()?),
            b"protect" => Command::Protect(fields.read()?, fields.read()?),
            b"device" => Command::Device(fields.read()?, fields.read()?),
            b"loadn" => Command::Load(Words::repeated(fields)?),
            b"read" => Command::Read(fields.read()?, fields.read()?, fields.size(ROOM)?),
            b"set" => Command::Set(fields.read()?, fields.read()?),
            b"step" => Command::Step,
            b"run" => Command::Run(fields.read()?),
            b"back" => Command::Back,
            b"forget" => Command::Forget,
            b"decode" => Command::Decode(fields.read()?),
            b"print" => Command::Print(fields.read()?, fields.size(ROOM)?),
            b"encode" => Command::Encode(instruction(fields)?),
            b"asm" => Command::Assemble(Assembly::read(fields)?),
            b"asmn" => Command::Assemble(Assembly::read_copies(fields)?),
            b"listing" => Command::Listing(short_text(fields)?),
            b"textn" => repeated_text(fields)?,
            b"state" => Command::State,
            _ => return None,
        })
    }
}

fn repeated_text<'a>(fields: &mut Fields) -> Option<Command<'a>> {
    let words = Words::repeated(fields)?;
    Some(Command::Text(fields.size(ROOM)?, words))
}

// A text that is no longer than most may be.
pub fn short_text<'a>(fields: &mut Fields<'a>) -> Option<Text<'a>> {
    fields.text()?.at_most(ROOM)
}
