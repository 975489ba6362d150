// To the block.
ghost use Rattle.std.specs.Prelude.{◌≡◌, length};
ghost use Rattle.block.specs.Block.{packed};

use crate::entries::put_entries;
use journal::State;
use wordbytes::put_words;

// Writes the state over all 87 bytes.
pub fn pack(s: State, block: &mut [u8])
    requires { length block.old ≡ 87 }
    ensures { block.new ≡ packed s }
{
    let m = s.machine;
    let map = m.map;
    put_words(block, 0, &m.registers.value);
    block[16] = u8::from(m.mode.debug);
    block[17] = base::low(map.regions);
    put_entries(block, 18, &map.region);
    block[50] = base::low(map.devices);
    put_entries(block, 51, &map.device);
    put_words(block, 83, &[s.next, s.held]);
}
