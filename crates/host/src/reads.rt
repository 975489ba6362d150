// Reading memory out.
ghost use Rattle.std.specs.Prelude.{◌≡◌, length};
ghost use Rattle.memory.specs.Bytes.{lent};
ghost use Rattle.memory.specs.Blocks.{counted};
ghost use Rattle.host.specs.Host.{read_out, read_out_buffer};

use base::Refusal;
use journal::State;

// Reads size bytes from start on into a buffer: 1, 12, 19, then the count of bytes before the first unmapped one.
// Bytes of the buffer past the count stay.
pub fn read_out(
    s: State,
    mem: &[u8],
    dev: &[u8],
    journal: &[u8],
    start: u16,
    size: usize,
    buffer: &mut [u8],
) -> Result<usize, Refusal>
    ensures result_value { counted result ≡ read_out s (lent mem.now dev.now) journal.now start size (length buffer.old) }
    ensures buffer_after { buffer.new ≡ read_out_buffer s (lent mem.now dev.now) journal.now start size buffer.old }
{
    if !journal::valid(s, dev, journal) {
        return Err(Refusal::BadState);
    }
    memory::read_out(s.machine.map, mem, dev, start, size, buffer)
}
