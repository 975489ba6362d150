// From the block.
ghost use Rattle.std.specs.Prelude.{◌≡◌, length};
ghost use Rattle.block.specs.Block.{is_block, map_in, machine_in, unpacked};

use crate::entries::entries_at;
use journal::State;
use machine::{Machine, Mode, Registers};
use map::Map;
use wordbytes::{word_at, words_at};

// 87 bytes, and debug is 0 or 1.
#[tactic(auto, unfolding(crate::specs::Block::is_block))]
pub fn is_block(block: &[u8]) -> bool
    ensures { result ≡ is_block block.now }
{
    block.len() == 87 && block[16] <= 1
}

// A count is one byte of the block, and a number of sixteen bits in the state.
fn map_in(block: &[u8]) -> Map
    requires { length block.now ≡ 87 }
    ensures { result ≡ map_in block.now }
{
    Map {
        regions: u16::from(block[17]),
        region: entries_at(block, 18),
        devices: u16::from(block[50]),
        device: entries_at(block, 51),
    }
}

fn machine_in(block: &[u8]) -> Machine
    requires { length block.now ≡ 87 }
    ensures { result ≡ machine_in block.now }
{
    Machine {
        registers: Registers {
            value: words_at(block, 0),
        },
        mode: Mode {
            debug: block[16] == 1,
        },
        map: map_in(block),
    }
}

// The state of a block. It may be invalid: nothing is tested here.
#[tactic(auto, unfolding(crate::specs::Block::unpacked))]
pub fn unpack(block: &[u8]) -> State
    requires { length block.now ≡ 87 }
    ensures { result ≡ unpacked block.now }
{
    State {
        machine: machine_in(block),
        next: word_at(block, 83),
        held: word_at(block, 85),
    }
}
