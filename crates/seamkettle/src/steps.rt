// Step, run, step back, forget.
ghost use Rattle.std.specs.Prelude.{◌≡◌};
ghost use Rattle.memory.specs.Bytes.{lent};
ghost use Rattle.journal.specs.Back.{forget_number, forgotten};
ghost use Rattle.seamkettle.specs.Calls.{seen, stepping, running, stepping_back, number_in, block_after};

use crate::frame::on_block;
use block::{is_block, pack, unpack};
use numbers::{bad_block, of_answer, of_run, of_step};

// One step, recorded: 31, 1, then the machine's own answer.
pub fn kettle_step(
    block: &mut [u8],
    memory: &mut [u8],
    devices: &mut [u8],
    journal: &mut [u8],
) -> u64
    ensures { seen result block.new (lent memory.new devices.new) journal.new ≡ stepping block.old (lent memory.old devices.old) journal.old }
{
    if !is_block(block) {
        return bad_block();
    }
    let mut s = unpack(block);
    let answer = journal::step(&mut s, memory, devices, journal);
    pack(s, block);
    of_step(answer)
}

// At most so many steps: 31, 1, then the last step's answer, and how many were accepted.
pub fn kettle_run(
    block: &mut [u8],
    memory: &mut [u8],
    devices: &mut [u8],
    journal: &mut [u8],
    steps: u32,
) -> u64
    ensures { seen result block.new (lent memory.new devices.new) journal.new ≡ running steps block.old (lent memory.old devices.old) journal.old }
{
    if !is_block(block) {
        return bad_block();
    }
    let mut s = unpack(block);
    let ran = journal::run(&mut s, memory, devices, journal, steps);
    pack(s, block);
    of_run(ran.answer, ran.count)
}

// Takes the newest record back: 31, 1, 10, 11.
pub fn kettle_step_back(
    block: &mut [u8],
    memory: &mut [u8],
    devices: &mut [u8],
    journal: &[u8],
) -> u64
    ensures { seen result block.new (lent memory.new devices.new) journal.now ≡ stepping_back block.old (lent memory.old devices.old) journal.now }
{
    if !is_block(block) {
        return bad_block();
    }
    let mut s = unpack(block);
    let answer = journal::step_back(&mut s, memory, devices, journal);
    pack(s, block);
    of_answer(answer)
}

// Empties the journal: 31, 1. Its bytes stay.
pub fn kettle_forget(block: &mut [u8], devices: &[u8], journal: &[u8]) -> u64
    ensures value { result ≡ number_in block.old (λ s. forget_number s devices.now journal.now) }
    ensures block_after { block.new ≡ block_after block.old (λ s. forgotten s devices.now journal.now) }
{
    on_block(block, |s| of_answer(journal::forget(s, devices, journal)))
}
