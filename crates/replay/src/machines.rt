// The machine and its journal: raw from the line, by the rules, and shown. Each function does what a command says, and gives its
// answer.
use crate::adler::adler;
use crate::answers::{Answer, Maybe, Walk, changed, mark_before, stepped, stored, write_filled};
use crate::buffers::{Buffer, Buffers, Setup};
use crate::line::Fields;
use crate::script::Script;
use crate::texts::Text;
use crate::words::{WORDS, Words};
use machine::Registers;
use map::{Device, Map, Region};
use memory::Stored;
use std::io;
use std::io::Write;

// The tables as a line has them: a count and eight pairs, twice.
pub fn tables(fields: &mut Fields) -> Option<Map> {
    Some(Map {
        regions: fields.read()?,
        region: pairs(fields)?.map(|(start, len)| Region { start, len }),
        devices: fields.read()?,
        device: pairs(fields)?.map(|(start, end)| Device { start, end }),
    })
}

fn pairs(fields: &mut Fields) -> Option<[(u16, u16); 8]> {
    let mut pairs = [(0, 0); 8];
    for pair in &mut pairs {
        *pair = (fields.read()?, fields.read()?);
    }
    Some(pairs)
}

// Commands of the language itself, which change what is lent and the state as they like.
impl Script<'_> {
    // A zero state, and new buffers.
    pub fn renew(&mut self, setup: &Setup) -> &'static str {
        self.buffers.fill(setup);
        self.state = journal::new(setup.debug);
        "ok"
    }

    // Bytes that the host pokes into a buffer.
    pub fn poke(&mut self, buffer: Buffer, at: usize, text: Text) -> &'static str {
        match text.write_at(self.buffers.bytes(buffer), at) {
            Some(()) => "ok",
            None => "?",
        }
    }

    // The registers' values.
    pub fn set_registers(&mut self, value: [u16; 8]) -> &'static str {
        self.state.machine.registers = Registers { value };
        "ok"
    }

    // Where the journal stands.
    pub fn set_cursor(&mut self, next: u16, held: u16) -> &'static str {
        self.state.next = next;
        self.state.held = held;
        "ok"
    }

    // The tables.
    pub fn set_map(&mut self, map: Map) -> &'static str {
        self.state.machine.map = map;
        "ok"
    }
}

// Bytes and words, by the memory part alone.
impl Script<'_> {
    // The byte at an address.
    pub fn byte(&self, at: u16) -> Maybe {
        let Buffers { memory, device, .. } = &self.buffers;
        let map = self.state.machine.map;
        let byte = memory::read_byte(map, memory, device, at);
        Maybe(byte.map(|(byte, _)| u16::from(byte)))
    }

    // The word there.
    pub fn word(&self, at: u16) -> Answer<Maybe> {
        let Buffers { memory, device, .. } = &self.buffers;
        let map = self.state.machine.map;
        Answer(memory::read_word(map, memory, device, at).map(|word| Maybe(word)))
    }

    // A byte stored.
    pub fn put(&mut self, at: u16, byte: u8) -> &'static str {
        let Buffers { memory, device, .. } = &mut self.buffers;
        let map = self.state.machine.map;
        stored(memory::store_byte(map, memory, device, at, byte))
    }

    // A word stored.
    pub fn put_word(&mut self, at: u16, word: u16) -> Answer<&'static str> {
        let Buffers { memory, device, .. } = &mut self.buffers;
        let map = self.state.machine.map;
        let answer = memory::store_word(map, memory, device, at, word);
        Answer(answer.map(|outcome| match outcome {
            Stored::Done => stored(true),
            Stored::Failed => stored(false),
        }))
    }
}

// By the rules of the host. Some of these differ in the function that they call alone: a closure around that call would be longer.
impl Script<'_> {
    // A region protected.
    pub fn protect(&mut self, start: u16, len: u16) -> Answer<&'static str> {
        let Buffers {
            device,
            journal,
            ..
        } = &self.buffers;
        changed(host::protect(&mut self.state, device, journal, start, len))
    }

    // A device registered.
    pub fn register(&mut self, start: u16, size: u16) -> Answer<&'static str> {
        let Buffers {
            device,
            journal,
            ..
        } = &self.buffers;
        changed(host::register_device(&mut self.state, device, journal, start, size))
    }

    // A register set.
    pub fn set(&mut self, number: u16, value: u16) -> Answer<&'static str> {
        let Buffers {
            device,
            journal,
            ..
        } = &self.buffers;
        let number = usize::from(number);
        changed(host::set_register(&mut self.state, device, journal, number, value))
    }

    // A program loaded, if its words are right.
    pub fn load(&mut self, words: Words) -> Option<Answer<&'static str>> {
        let room = self.rooms.words.first(WORDS);
        let count = words.write(room)?;
        let words = &room[..count];
        let Buffers {
            memory,
            device,
            journal,
        } = &mut self.buffers;
        let answer = host::write_program(&mut self.state, memory, device, journal, words);
        Some(changed(answer))
    }

    // So many bytes from an address on, in a buffer of this length.
    pub fn read<W: Write>(
        &mut self,
        start: u16,
        size: u32,
        len: usize,
        out: &mut W,
    ) -> io::Result<()> {
        let Buffers {
            memory,
            device,
            journal,
        } = &self.buffers;
        let buffer = self.rooms.bytes.blank(len);
        let answer = host::read_out(
            self.state,
            memory,
            device,
            journal,
            start,
            size as usize,
            buffer,
        );
        write_filled(Answer(answer), buffer, out)
    }
}

// Steps, forwards and back.
impl Script<'_> {
    // One step.
    pub fn step(&mut self) -> Answer<&'static str> {
        let Buffers {
            memory,
            device,
            journal,
        } = &mut self.buffers;
        stepped(journal::step(&mut self.state, memory, device, journal))
    }

    // So many steps.
    pub fn run(&mut self, count: u32) -> Walk {
        let Buffers {
            memory,
            device,
            journal,
        } = &mut self.buffers;
        Walk(journal::run(&mut self.state, memory, device, journal, count))
    }

    // The newest step taken back.
    pub fn back(&mut self) -> Answer<&'static str> {
        let Buffers {
            memory,
            device,
            journal,
        } = &mut self.buffers;
        changed(journal::step_back(&mut self.state, memory, device, journal))
    }

    // The journal emptied.
    pub fn forget(&mut self) -> Answer<&'static str> {
        let Buffers {
            device,
            journal,
            ..
        } = &self.buffers;
        changed(journal::forget(&mut self.state, device, journal))
    }
}

// All of it in one line.
impl Script<'_> {
    // Registers, debug mode, both tables with their counts, the journal's cursor, and a checksum of each buffer.
    pub fn show<W: Write>(&self, out: &mut W) -> io::Result<()> {
        let machine = self.state.machine;
        let map = machine.map;
        for (i, value) in machine.registers.value.iter().enumerate() {
            let mark = mark_before(i, ",");
            write!(out, "{mark}{value}")?;
        }
        write!(out, " {} {} ", u8::from(machine.mode.debug), map.regions)?;
        write_pairs(map.region.map(|r| (r.start, r.len)), out)?;
        write!(out, " {} ", map.devices)?;
        write_pairs(map.device.map(|d| (d.start, d.end)), out)?;
        write!(out, " {} {}", self.state.next, self.state.held)?;
        write!(out, " {:08x}", adler(&self.buffers.memory))?;
        write!(out, " {:08x}", adler(&self.buffers.device))?;
        write!(out, " {:08x}", adler(&self.buffers.journal))
    }
}

// The entries of a table.
fn write_pairs<W: Write>(pairs: [(u16, u16); 8], out: &mut W) -> io::Result<()> {
    for (i, (start, other)) in pairs.iter().enumerate() {
        let mark = mark_before(i, ";");
        write!(out, "{mark}{start},{other}")?;
    }
    Ok(())
}
