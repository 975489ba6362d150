// replay: reads commands from standard input, one a line, and writes one answer line for each. A command calls one
// function of the proved crates and prints what that answered, so that a script can be sent to any other
// implementation of document 01 and the two texts compared. A line that is not right answers `?` and changes nothing.
#![tactic(auto)]

mod adler;
mod answers;
mod assembling;
mod buffers;
mod commands;
mod encodings;
mod input;
mod instructions;
mod lent;
mod line;
mod machines;
mod output;
mod rooms;
mod script;
mod texts;
mod words;

use assembling::UNSET;
use buffers::{Buffers, JOURNAL, MEMORY};
use output::{CHUNK, Output};
use rooms::{BYTES, LABELS, Rooms};
use script::Script;
use std::io;
use words::WORDS;

// The buffers at the longest that a script may ask for, and room for a line, for what a command needs and for what is read and
// written at a time. They stand here, once, and are lent down from here: nothing of their size is ever copied. A read or a write that
// fails ends the program with that error.
fn main(rt: HostRuntime) -> io::Result<()> {
    let mut memory = [0; MEMORY];
    let mut device = [0; MEMORY];
    let mut journal = [0; JOURNAL];
    let mut bytes = [0; BYTES];
    let mut words = [0; WORDS];
    let mut labels = [UNSET; LABELS];
    let mut line = [0; input::ROOM];
    let mut chunk = [0; CHUNK];
    let mut waiting = [0; CHUNK];
    let mut sink = rt.stdout();
    let mut out = Output::new(&mut sink, &mut waiting);
    let buffers = Buffers::new(&mut memory, &mut device, &mut journal);
    let rooms = Rooms::new(&mut bytes, &mut words, &mut labels);
    let mut script = Script::new(buffers, rooms);
    input::run(
        &mut script,
        &mut rt.stdin(),
        &mut chunk,
        &mut line,
        &mut out,
    )
}
