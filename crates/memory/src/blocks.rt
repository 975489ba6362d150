// Reading memory out into a lent buffer.
ghost use Rattle.std.specs.Prelude.{◌≡◌, length, ◌+◌, ◌≤◌};
ghost use Rattle.memory.specs.Bytes.{lent};
ghost use Rattle.memory.specs.Blocks.{read_bytes, over, counted, read_out, read_out_buffer};

use crate::bytes::read_byte;
use base::Refusal;
use map::Map;

// The bytes from start on, up to the first unmapped one; how many there were.
// (d): a `for` over numbers, since i is a byte's offset from start and its index in out.
fn copy_out(m: Map, mem: &[u8], dev: &[u8], start: u16, size: usize, out: &mut [u8]) -> usize
    requires { (start + size ≤ 65535) × (size ≤ length out.old) }
    ensures value { result ≡ length (read_bytes m (lent mem.now dev.now) start size) }
    ensures out_after { out.new ≡ over (read_bytes m (lent mem.now dev.now) start size) out.old }
{
    for i in 0..size {
        match read_byte(m, mem, dev, start + i as u16) {
            Some((v, _)) => {
                out[i] = v;
            }
            None => {
                return i;
            }
        }
    }
    size
}

// Reads size bytes from start on into out: 1, 12, 19, then the count of bytes before the first unmapped one.
// Bytes of out past the count stay.
#[tactic(auto, unfolding(crate::specs::Blocks::read_out, crate::specs::Blocks::read_out_buffer, crate::specs::Blocks::read_number, crate::specs::Blocks::read_order, crate::specs::Blocks::counting, crate::specs::Blocks::copying))]
pub fn read_out(
    m: Map,
    mem: &[u8],
    dev: &[u8],
    start: u16,
    size: usize,
    out: &mut [u8],
) -> Result<usize, Refusal>
    ensures result_value { counted result ≡ read_out m (lent mem.now dev.now) start size (length out.old) }
    ensures out_after { out.new ≡ read_out_buffer m (lent mem.now dev.now) start size out.old }
{
    if !map::valid(m, dev) {
        return Err(Refusal::BadState);
    }
    if 65535 - (start as usize) < size {
        return Err(Refusal::RangeOverflow);
    }
    if out.len() < size {
        return Err(Refusal::NoRoom);
    }
    Ok(copy_out(m, mem, dev, start, size, out))
}
