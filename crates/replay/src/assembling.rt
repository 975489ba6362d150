// Assembly: whole texts, single lines, listings, and text from words.
use crate::answers::{mark_before, write_filled, write_hex, write_refusal};
use crate::commands::short_text;
use crate::instructions::encode;
use crate::line::{Fields, FromField};
use crate::rooms::{BYTES, LABELS, Rooms};
use crate::texts::Text;
use crate::words::{WORDS, Words};
use asm::{Fault, Rules, Totals};
use base::Refusal;
use labels::Label;
use single::parse_assembly_line;
use std::fmt::Display;
use std::io::Write;
use std::{fmt, io};

// The most copies of a text.
const COPIES: usize = 32_800;

// A text to be assembled: so many copies of one, and another behind them.
#[derive(Clone, Copy)]
pub struct Assembly<'a> {
    rules: Rules,
    words: usize,
    labels: usize,
    copies: usize,
    text: Text<'a>,
    rest: Text<'a>,
}

impl FromField for Rules {
    fn from_field(field: &[u8]) -> Option<Rules> {
        match field {
            b"plain" => Some(Rules { strict: false }),
            b"strict" => Some(Rules { strict: true }),
            _ => None,
        }
    }
}

impl<'a> Assembly<'a> {
    // Rules, rooms and one text.
    pub fn read(fields: &mut Fields<'a>) -> Option<Assembly<'a>> {
        Some(Assembly {
            rules: fields.read()?,
            words: fields.size(WORDS)?,
            labels: fields.size(LABELS)?,
            copies: 1,
            text: short_text(fields)?,
            rest: Text::empty(),
        })
    }

    // The same with a count of copies and a second text. No text of 65,600 bytes has 32,768 instructions, so that this alone can fill
    // a program.
    pub fn read_copies(fields: &mut Fields<'a>) -> Option<Assembly<'a>> {
        let assembly = Assembly {
            rules: fields.read()?,
            words: fields.size(WORDS)?,
            labels: fields.size(LABELS)?,
            copies: fields.size(COPIES)?,
            text: fields.text()?,
            rest: fields.text()?,
        };
        let copied = assembly.copies.checked_mul(assembly.text.len())?;
        if copied.checked_add(assembly.rest.len())? <= BYTES {
            Some(assembly)
        } else {
            None
        }
    }

    // The whole text, spelt out in this room. Each byte of a further copy is that of the copy before.
    fn spell<'r>(&self, room: &'r mut [u8]) -> &'r [u8] {
        let len = self.text.len();
        let copied = self.copies.saturating_mul(len).min(room.len());
        let (copies, rest) = room.split_at_mut(copied);
        self.text.write(copies);
        for i in len..copied {
            copies[i] = copies[i - len];
        }
        self.rest.write(rest);
        let whole = copied.saturating_add(self.rest.len()).min(room.len());
        &room[..whole]
    }

    // Assembles it, and writes the answer and then all that was lent.
    pub fn answer<W: Write>(&self, rooms: &mut Rooms, out: &mut W) -> io::Result<()> {
        let Rooms {
            bytes,
            words,
            labels,
        } = rooms;
        let text = self.spell(bytes.first(BYTES));
        let words = words.first(self.words);
        let labels = labels.first(self.labels);
        words.fill(0xEEEE);
        labels.fill(UNSET);
        let answer = assembler::assemble(self.rules, text, words, labels);
        write!(out, "{} | ", Assembled(answer))?;
        for (i, word) in words.iter().enumerate() {
            let mark = mark_before(i, " ");
            write!(out, "{mark}{word:04X}")?;
        }
        write!(out, " | ")?;
        for (i, label) in labels.iter().enumerate() {
            let mark = mark_before(i, " ");
            write!(
                out,
                "{mark}{},{},{}",
                label.place, label.length, label.address
            )?;
        }
        Ok(())
    }
}

// What the label table has before. It is not zero, so that it shows where it is cleared.
pub const UNSET: Label = Label {
    place: 7,
    length: 7,
    address: 7,
};

// The counts of an accepted text, or the refusal with its line.
#[derive(Clone, Copy)]
struct Assembled(Result<Totals, Fault>);

impl Display for Assembled {
    fn fmt<W: fmt::Write>(&self, f: &mut fmt::Formatter<W>) -> fmt::Result {
        match self.0 {
            Ok(t) => write!(f, "ok {} {} {}", t.words, t.labels, t.waiting),
            Err(fault) => write!(f, "no {} line {}", u8::from(fault.refusal), fault.line),
        }
    }
}

// A line of assembly, the text that its labels' names stand in, and the labels.
pub fn line<W: Write>(
    code: Text,
    names: Text,
    labels: Fields,
    rooms: &mut Rooms,
    out: &mut W,
) -> io::Result<()> {
    let Rooms {
        bytes,
        labels: room,
        ..
    } = rooms;
    let room = room.first(LABELS);
    let Some(count) = labels.list(room) else {
        return write!(out, "?");
    };
    // Two texts of the longest fill the room.
    let bytes = bytes.first(BYTES);
    let half = bytes.len() / 2;
    let (code_room, names_room) = bytes.split_at_mut(half);
    let code = code.spell(code_room);
    let names = names.spell(names_room);
    match parse_assembly_line(code, names, &room[..count]) {
        Ok(instruction) => encode(instruction, out),
        Err(refusal) => write_refusal(refusal, out),
    }
}

// The longest listing has 245,779 bytes: no line is longer beside its own in the text than that of `DBG`, fifteen bytes for four, and
// the text has 65,536 at most.
const LISTING: usize = 262_144;

// The listing of a text. Room for it stands here, where no other command pays for it: none needs as much.
#[inline(never)]
pub fn listing<W: Write>(text: Text, rooms: &mut Rooms, out: &mut W) -> io::Result<()> {
    let text = text.spell(rooms.bytes.first(BYTES));
    let mut listing = [0; LISTING];
    match lister::list(text, &mut listing) {
        Ok(n) => write_hex(&listing[..n.min(LISTING)], out),
        Err(refusal) => write_refusal(refusal, out),
    }
}

// The text that says these words.
pub fn source<W: Write>(
    words: Words,
    len: usize,
    rooms: &mut Rooms,
    out: &mut W,
) -> io::Result<()> {
    let Rooms {
        bytes,
        words: room,
        ..
    } = rooms;
    let room = room.first(WORDS);
    let Some(count) = words.write(room) else {
        return write!(out, "?");
    };
    let buffer = bytes.blank(len);
    let answer = Sourced(source::text(&room[..count], buffer));
    write_filled(answer, buffer, out)
}

// The length of a text from words, or the refusal; with 33 stands the index of the word that no line says.
#[derive(Clone, Copy)]
struct Sourced(Result<usize, source::Fault>);

impl Display for Sourced {
    fn fmt<W: fmt::Write>(&self, f: &mut fmt::Formatter<W>) -> fmt::Result {
        match self.0 {
            Ok(n) => write!(f, "{n}"),
            Err(fault) => match fault.refusal {
                Refusal::NoText => write!(f, "no 33 {}", fault.index),
                refusal => write!(f, "no {}", u8::from(refusal)),
            },
        }
    }
}
