// Records of accepted steps, 23 bytes each, in the slots of a lent journal.
#![tactic(auto)]

mod bytes;
mod slots;

pub use slots::{fill, one_more, read, room, slot_after, slot_before};

// A byte that a step replaced: its address, and what was there.
#[derive(Clone, Copy)]
pub struct Old {
    pub address: u16,
    pub byte: u8,
}

// What an accepted step changed: how many bytes it stored, the registers before it, the bytes that it replaced.
#[derive(Clone, Copy)]
pub struct Record {
    // A byte and no enum: what lies in a lent journal may be any byte, and step-back refuses those that are no kind.
    pub kind: u8,
    pub registers: [u16; 8],
    pub first: Old,
    pub second: Old,
}
