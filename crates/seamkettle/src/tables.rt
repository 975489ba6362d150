// What a host sets: a register, a protected region, a device. Memory is not looked at.
ghost use Rattle.std.specs.Prelude.{◌≡◌};
ghost use Rattle.host.specs.Host.{set_number, set_state, protect_number, protect_state, register_number, register_state};
ghost use Rattle.seamkettle.specs.Calls.{number_in, block_after};

use crate::frame::on_block;
use numbers::{narrow, of_answer};

// Sets register `number` of A to FLAGS, from 0: 31, 1, 18.
pub fn kettle_set_register(
    block: &mut [u8],
    devices: &[u8],
    journal: &[u8],
    number: usize,
    value: u16,
) -> u64
    ensures value { result ≡ number_in block.old (λ s. set_number s devices.now journal.now number) }
    ensures block_after { block.new ≡ block_after block.old (λ s. set_state s devices.now journal.now number value) }
{
    on_block(
        block,
        |s| of_answer(host::set_register(s, devices, journal, number, value)),
    )
}

// Protects the addresses from start on, len of them: 31, 1, 12, 13, 14.
pub fn kettle_protect(
    block: &mut [u8],
    devices: &[u8],
    journal: &[u8],
    start: usize,
    len: usize,
) -> u64
    ensures value { result ≡ number_in block.old (λ s. protect_number s devices.now journal.now start len) }
    ensures block_after { block.new ≡ block_after block.old (λ s. protect_state s devices.now journal.now start len) }
{
    let (a, n) = narrow(start, len);
    on_block(
        block,
        |s| of_answer(host::protect(s, devices, journal, a, n)),
    )
}

// A new device over the addresses from start on, size of them: 31, 1, 12, 13, 14, 17.
pub fn kettle_device(
    block: &mut [u8],
    devices: &[u8],
    journal: &[u8],
    start: usize,
    size: usize,
) -> u64
    ensures value { result ≡ number_in block.old (λ s. register_number s devices.now journal.now start size) }
    ensures block_after { block.new ≡ block_after block.old (λ s. register_state s devices.now journal.now start size) }
{
    let (a, n) = narrow(start, size);
    on_block(
        block,
        |s| of_answer(host::register_device(s, devices, journal, a, n)),
    )
}
