// The bytes that the machine is lent: memory, device bytes and the journal.
use crate::lent::Lent;
use crate::line::{Fields, FromField};

// The most bytes that memory and device may have, and the journal.
pub const MEMORY: usize = 65_792;

pub const JOURNAL: usize = 94_300;

// What `new` asks for: the buffers' lengths, debug mode, and what to fill the buffers by.
#[derive(Clone, Copy)]
pub struct Setup {
    pub memory: usize,
    pub device: usize,
    pub journal: usize,
    pub debug: bool,
    pub seed: u16,
}

impl Setup {
    // What the next five fields say.
    pub fn read(fields: &mut Fields) -> Option<Setup> {
        Some(Setup {
            memory: fields.size(MEMORY)?,
            device: fields.size(MEMORY)?,
            journal: fields.size(JOURNAL)?,
            debug: fields.read()?,
            seed: fields.read()?,
        })
    }
}

// Which of the three.
#[derive(Clone, Copy, Debug, PartialEq, Eq)]
pub enum Buffer {
    Memory,
    Device,
    Journal,
}

impl FromField for Buffer {
    fn from_field(field: &[u8]) -> Option<Buffer> {
        match field {
            b"memory" => Some(Buffer::Memory),
            b"device" => Some(Buffer::Device),
            b"journal" => Some(Buffer::Journal),
            _ => None,
        }
    }
}

// All three, each as long as the last `new` asked for. The rest of a room is never lent to a command.
#[derive(Drop)]
pub struct Buffers<'a> {
    pub memory: Lent<'a>,
    pub device: Lent<'a>,
    pub journal: Lent<'a>,
}

impl<'a> Buffers<'a> {
    // Empty ones, with room for all that a script may ask for.
    pub fn new(
        memory: &'a mut [u8; MEMORY],
        device: &'a mut [u8; MEMORY],
        journal: &'a mut [u8; JOURNAL],
    ) -> Buffers<'a> {
        Buffers {
            memory: Lent::new(memory),
            device: Lent::new(device),
            journal: Lent::new(journal),
        }
    }

    // Fills all three anew.
    pub fn fill(&mut self, setup: &Setup) {
        fill(&mut self.memory, setup.memory, setup.seed);
        fill(&mut self.device, setup.device, setup.seed);
        fill(&mut self.journal, setup.journal, setup.seed);
    }

    // The bytes of one.
    pub fn bytes(&mut self, buffer: Buffer) -> &mut [u8] {
        match buffer {
            Buffer::Memory => &mut self.memory,
            Buffer::Device => &mut self.device,
            Buffer::Journal => &mut self.journal,
        }
    }
}

// Byte i is (seed * (i + 1) * 40503 / 128) mod 256, which is in the fifteen lowest bits of the product.
fn fill(buffer: &mut Lent, len: usize, seed: u16) {
    let step = u32::from(seed).wrapping_mul(40_503);
    let mut product: u32 = 0;
    buffer.resize(len);
    for byte in buffer.iter_mut() {
        product = product.wrapping_add(step);
        *byte = (product / 128 % 256) as u8;
    }
}
