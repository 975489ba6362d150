// Words and instructions: decoded, printed, encoded from fields. Nothing here looks at the machine.
use crate::answers::{Answer, write_filled, write_refusal};
use crate::rooms::Rooms;
use base::Refusal;
use instruction::Instruction;
use std::io;
use std::io::Write;

// No instruction's text is longer.
const TEXT: usize = 64;

// The text of an instruction.
fn spelt(instruction: Instruction, room: &mut [u8; TEXT]) -> Result<&[u8], Refusal> {
    let n = printer::print(instruction, room, 0)?;
    Ok(&room[..n.min(TEXT)])
}

// The word of an instruction, and then the instruction as it was written.
pub fn encode<W: Write>(instruction: Instruction, out: &mut W) -> io::Result<()> {
    let mut room = [0; TEXT];
    match spelt(instruction, &mut room) {
        Ok(text) => {
            write!(out, "{:04X} ", instruction::encode(instruction))?;
            out.write_all(text)
        }
        Err(refusal) => write_refusal(refusal, out),
    }
}

// The text of the instruction that a word says.
pub fn decode<W: Write>(word: u16, out: &mut W) -> io::Result<()> {
    let mut room = [0; TEXT];
    match instruction::decode(word) {
        Ok(instruction) => match spelt(instruction, &mut room) {
            Ok(text) => out.write_all(text),
            Err(refusal) => write_refusal(refusal, out),
        },
        Err(refusal) => write_refusal(refusal, out),
    }
}

// The same in a buffer of this length. A word that is no instruction has nothing to show.
pub fn print<W: Write>(word: u16, len: usize, rooms: &mut Rooms, out: &mut W) -> io::Result<()> {
    if let Err(refusal) = instruction::decode(word) {
        return write_refusal(refusal, out);
    }
    let buffer = rooms.bytes.blank(len);
    let answer = Answer(printer::print_word(word, buffer));
    write_filled(answer, buffer, out)
}
