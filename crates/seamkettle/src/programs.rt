// A program into memory, and memory out of it.
ghost use Rattle.std.specs.Prelude.{◌≡◌, length};
ghost use Rattle.base.specs.Numbers.{answer_number};
ghost use Rattle.wordbytes.specs.Words.{words_in};
ghost use Rattle.memory.specs.Bytes.{lent};
ghost use Rattle.host.specs.Host.{load_number, load_state, load_bytes};
ghost use Rattle.seamkettle.specs.Calls.{seen, loading, read_number, read_buffer};

use base::Refusal;
use block::{is_block, pack, unpack};
use journal::State;
use numbers::{bad_block, narrow, of_answer, of_count};
use wordbytes::read_words;

// Loads the words of these bytes by way of `program`. It has room for one word more than a load takes, so that too many stay too
// many.
fn load_words(
    s: &mut State,
    memory: &mut [u8],
    devices: &mut [u8],
    journal: &[u8],
    bytes: &[u8],
    program: &mut [u16],
) -> Result<(), Refusal>
    requires { length program.old ≡ 32769 }
    ensures answer_value { answer_number result ≡ load_number s.old (lent memory.old devices.old) journal.now (words_in bytes.now) }
    ensures state_value { s.new ≡ load_state s.old (lent memory.old devices.old) journal.now (words_in bytes.now) }
    ensures devices_after { lent memory.new devices.new ≡ load_bytes s.old (lent memory.old devices.old) journal.now (words_in bytes.now) }
{
    let n = bytes.len() / 2;
    if 32769 < n {
        return host::write_program(s, memory, devices, journal, program);
    }
    read_words(bytes, &mut program[..n]);
    host::write_program(s, memory, devices, journal, &program[..n])
}

// Loads a program: 31, 1, 16, 14, 15, 13. 15 and 13 keep what was stored and the emptied journal.
pub fn kettle_load(
    block: &mut [u8],
    memory: &mut [u8],
    devices: &mut [u8],
    journal: &[u8],
    words: &[u8],
) -> u64
    ensures { seen result block.new (lent memory.new devices.new) journal.now ≡ loading words.now block.old (lent memory.old devices.old) journal.now }
{
    if !is_block(block) {
        return bad_block();
    }
    if words.len() % 2 != 0 {
        return bad_block();
    }
    let mut s = unpack(block);
    let mut program = [0u16; 32769];
    let answer = load_words(&mut s, memory, devices, journal, words, &mut program);
    pack(s, block);
    of_answer(answer)
}

// Reads size bytes from start on into the buffer: 31, 1, 12, 19, then how many there are before the first unmapped one.
pub fn kettle_read(
    block: &[u8],
    memory: &[u8],
    devices: &[u8],
    journal: &[u8],
    start: usize,
    size: usize,
    buffer: &mut [u8],
) -> u64
    ensures value { result ≡ read_number block.now (lent memory.now devices.now) journal.now start size (length buffer.old) }
    ensures buffer_after { buffer.new ≡ read_buffer block.now (lent memory.now devices.now) journal.now start size buffer.old }
{
    if !is_block(block) {
        return bad_block();
    }
    let s = unpack(block);
    let (a, n) = narrow(start, size);
    let r = host::read_out(s, memory, devices, journal, a, n as usize, buffer);
    of_count(r)
}
