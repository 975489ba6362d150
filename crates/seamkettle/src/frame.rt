// What the entries that change a block have in common.
ghost use Rattle.std.specs.Prelude.{◌≡◌, true, false};
ghost use Rattle.std.specs.Fn.{FnOnceReturnsAtMut};
ghost use Rattle.block.specs.Block.{is_block, packed, unpacked};
ghost use Rattle.journal.specs.declared.State.{State};

use block::{is_block, pack, unpack};
use journal::State;
use numbers::bad_block;

// Has the state of a block changed and packs it: 31, and nothing is touched, unless there is a block.
// Steps and loads keep this frame written out: a closure that is never called leaves nothing known of the bytes that were lent to it.
pub fn on_block<F: FnOnce(&mut State) -> u64>(block: &mut [u8], act: F) -> u64
    requires { F.IsAlwaysCallable act }
    ensures none { is_block block.old ≡ false → ((result ≡ 31) × (block.new ≡ block.old)) }
    ensures some { is_block block.old ≡ true → ((t : State) × FnOnceReturnsAtMut F.FnOnce act (unpacked block.old) result t × (block.new ≡ packed t)) }
{
    if !is_block(block) {
        return bad_block();
    }
    let mut s = unpack(block);
    let number = act(&mut s);
    pack(s, block);
    number
}
