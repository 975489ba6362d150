// Room for what a command needs while it is answered. It stands in `main`, once, so that a command clears no more of it than it uses.
use crate::commands::ROOM;
use crate::lent::Room;
use crate::words::WORDS;
use labels::Label;

// The most bytes that all texts of a line may have: where there are two they may be as long as any. A buffer to write in is shorter.
pub const BYTES: usize = 2 * ROOM;

// The most labels that a line may have, or room for.
pub const LABELS: usize = 1_100;

// Bytes for texts or for a buffer to write in, words, and labels. What a command before has left there is never looked at.
#[derive(Drop)]
pub struct Rooms<'a> {
    pub bytes: Room<'a, u8>,
    pub words: Room<'a, u16>,
    pub labels: Room<'a, Label>,
}

impl<'a> Rooms<'a> {
    // For the longest command.
    pub fn new(
        bytes: &'a mut [u8; BYTES],
        words: &'a mut [u16; WORDS],
        labels: &'a mut [Label; LABELS],
    ) -> Rooms<'a> {
        Rooms {
            bytes: Room::new(bytes),
            words: Room::new(words),
            labels: Room::new(labels),
        }
    }
}
