// The memory map: which addresses are protected, which a device covers, and where the byte of an address is.
// No byte is read or stored here. Tables may hold anything, and every function answers.
// (b): what a step asks goes over the tables by number. An iterator would borrow the map, and each step would copy it (docs/BENCHMARKS.md).
#![tactic(auto)]

mod devices;
mod entries;
mod places;
mod regions;
mod tables;

pub use places::{is_linear_word, is_somewhere, place_of, target_of};
pub use regions::is_protected;
pub use tables::{add_region, empty, protect, register_device, valid};

// A protected region: the addresses from start on, len of them.
#[derive(Clone, Copy)]
pub struct Region {
    pub start: u16,
    pub len: u16,
}

// A device: the addresses from start on, below end.
#[derive(Clone, Copy)]
pub struct Device {
    pub start: u16,
    pub end: u16,
}

// Both tables, each with the number of its entries in use. Unused entries of a valid map are zero.
// (a): the counts stay beside tables of eight, since a state from C may hold any count, and whether it is valid is what `valid` answers.
#[derive(Clone, Copy)]
pub struct Map {
    pub regions: u16,
    pub region: [Region; 8],
    pub devices: u16,
    pub device: [Device; 8],
}

// Where the byte of an address is kept. (d): `Nowhere` stays a variant, since each who asks matches all three.
#[derive(Clone, Copy)]
pub enum Place {
    // The byte of linear memory at this index.
    Linear(usize),
    // A device's byte: the device's number in the table, the offset from its start, the index in the device buffer.
    Bank {
        number: usize,
        offset: u16,
        index: usize,
    },
    Nowhere,
}
