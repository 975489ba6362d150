// Rooms that are lent: what stands in them asks for no memory of its own.
ghost use Rattle.std.specs.Prelude.{◌≤◌, length};

use std::ops::{DerefSlice, DerefSliceMut};

// So many places.
#[derive(Drop)]
pub struct Room<'a, T> {
    all: &'a mut [T],
}

impl<'a, T> Room<'a, T> {
    // All of these.
    pub fn new(all: &'a mut [T]) -> Room<'a, T> {
        Room { all }
    }

    // Its first `n` places, and all where there are no more.
    pub fn first(&mut self, n: usize) -> &mut [T] {
        let n = n.min(self.all.len());
        &mut self.all[..n]
    }
}

impl Room<'_, u8> {
    // A buffer of this length that nothing was written in yet.
    pub fn blank(&mut self, len: usize) -> &mut [u8] {
        let buffer = self.first(len);
        buffer.fill(0xEE);
        buffer
    }
}

// The first bytes of a room, as many as were put there.
#[derive(Drop)]
pub struct Lent<'a> {
    room: &'a mut [u8],
    len: usize,
}

impl<'a> Lent<'a> {
    // None yet.
    pub fn new(room: &'a mut [u8]) -> Lent<'a> {
        Lent { room, len: 0 }
    }

    // Makes it so long, or as long as the room is.
    pub fn resize(&mut self, len: usize) {
        self.len = len.min(self.room.len());
    }

    // How many more bytes there is room for.
    pub fn free(&self) -> usize {
        self.room.len().saturating_sub(self.len)
    }

    // Puts as many of these bytes behind its own as there is room for, and answers how many.
    pub fn append(&mut self, bytes: &[u8]) -> usize
        ensures { result ≤ length bytes.now }
    {
        let Some(free) = self.room.get_mut(self.len..) else {
            return 0;
        };
        let n = bytes.len().min(free.len());
        free[..n].copy_from_slice(&bytes[..n]);
        self.len += n;
        n
    }
}

impl DerefSlice for Lent<'_> {
    type Elem = u8;

    fn deref(&self) -> &[u8] {
        &self.room[..self.len.min(self.room.len())]
    }
}

impl DerefSliceMut for Lent<'_> {
    fn deref_mut(&mut self) -> &mut [u8] {
        let len = self.len.min(self.room.len());
        &mut self.room[..len]
    }
}
