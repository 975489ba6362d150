// The script so far: a machine with its journal's cursor, and the buffers that it is lent.
use crate::buffers::Buffers;
use crate::commands::Command;
use crate::rooms::Rooms;
use crate::{assembling, instructions};
use journal::State;
use std::io;
use std::io::Write;

// What the commands so far have made, and room for the next.
#[derive(Drop)]
pub struct Script<'a> {
    pub state: State,
    pub buffers: Buffers<'a>,
    pub rooms: Rooms<'a>,
}

impl<'a> Script<'a> {
    // Before the first command everything is zero and empty.
    pub fn new(buffers: Buffers<'a>, rooms: Rooms<'a>) -> Script<'a> {
        Script {
            state: journal::new(false),
            buffers,
            rooms,
        }
    }

    // Answers a line.
    pub fn answer<W: Write>(&mut self, line: &[u8], out: &mut W) -> io::Result<()> {
        match Command::of(line) {
            Some(command) => self.perform(command, out)?,
            None => write!(out, "?")?,
        }
        write!(out, "\n")
    }

    fn perform<W: Write>(&mut self, command: Command, out: &mut W) -> io::Result<()> {
        match command {
            Command::New(setup) => write!(out, "{}", self.renew(&setup)),
            Command::Poke(buffer, at, text) => write!(out, "{}", self.poke(buffer, at, text)),
            Command::Regs(value) => write!(out, "{}", self.set_registers(value)),
            Command::Cursor(next, held) => write!(out, "{}", self.set_cursor(next, held)),
            Command::Tables(map) => write!(out, "{}", self.set_map(map)),
            Command::Byte(at) => write!(out, "{}", self.byte(at)),
            Command::Word(at) => write!(out, "{}", self.word(at)),
            Command::Put(at, byte) => write!(out, "{}", self.put(at, byte)),
            Command::PutWord(at, word) => write!(out, "{}", self.put_word(at, word)),
            Command::Protect(start, len) => write!(out, "{}", self.protect(start, len)),
            Command::Device(start, size) => write!(out, "{}", self.register(start, size)),
            Command::Load(words) => match self.load(words) {
                Some(answer) => write!(out, "{answer}"),
                None => write!(out, "?"),
            },
            Command::Read(start, size, len) => self.read(start, size, len, out),
            Command::Set(number, value) => write!(out, "{}", self.set(number, value)),
            Command::Step => write!(out, "{}", self.step()),
            Command::Run(count) => write!(out, "{}", self.run(count)),
            Command::Back => write!(out, "{}", self.back()),
            Command::Forget => write!(out, "{}", self.forget()),
            Command::Decode(word) => instructions::decode(word, out),
            Command::Print(word, len) => instructions::print(word, len, &mut self.rooms, out),
            Command::Encode(instruction) => instructions::encode(instruction, out),
            Command::Assemble(assembly) => assembly.answer(&mut self.rooms, out),
            Command::Line(code, names, labels) => {
                assembling::line(code, names, labels, &mut self.rooms, out)
            },
            Command::Listing(text) => assembling::listing(text, &mut self.rooms, out),
            Command::Text(len, words) => assembling::source(words, len, &mut self.rooms, out),
            Command::State => self.show(out),
        }
    }
}
