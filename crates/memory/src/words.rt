// A word: two bytes, the low one first.
ghost use Rattle.std.specs.Prelude.{◌≡◌};
ghost use Rattle.base.specs.Told.{is, told};
ghost use Rattle.base.specs.Words.{high_of};
ghost use Rattle.memory.specs.Bytes.{lent};
ghost use Rattle.memory.specs.Words.{read_word, byte_stored, word_stored, store_word, decided, decides, byte_decision, high_change, word_decision, made};

use crate::bytes::{read_byte, store_at};
use crate::{Change, Changes, Decision, Stored};
use base::Refusal;
use map::Map;

// The word at an address, low byte first, or none where a byte of it is unmapped.
#[tactic(auto, unfolding(crate::specs::Words::read_word, crate::specs::Words::read_high, crate::specs::Words::joined))]
pub fn read_word(m: Map, mem: &[u8], dev: &[u8], a: u16) -> Result<Option<u16>, Refusal>
    ensures { told result ≡ read_word m (lent mem.now dev.now) a }
{
    let Some((low, _)) = read_byte(m, mem, dev, a) else {
        return Ok(None);
    };
    let b = base::second_address(a).ok_or(Refusal::AddressOverflow)?;
    Ok(read_byte(m, mem, dev, b).map(|(high, _)| base::word(low, high)))
}

// The same, faster where both bytes are linear: they are read at once.
pub fn fetch_word(m: Map, mem: &[u8], dev: &[u8], a: u16) -> Result<Option<u16>, Refusal>
    ensures { told result ≡ read_word m (lent mem.now dev.now) a }
{
    if map::is_linear_word(m, mem.len(), a) {
        let i = a as usize;
        let low = mem[i];
        let high = mem[i + 1];
        return Ok(Some(base::word(low, high)));
    }
    read_word(m, mem, dev, a)
}

// What storing a byte comes to.
#[tactic(auto, unfolding(crate::specs::Words::byte_decision, crate::specs::Words::byte_stored, crate::specs::Words::change_at, crate::specs::Bytes::takes, crate::specs::Bytes::target_in))]
pub fn decide_byte(m: Map, mem: &[u8], dev: &[u8], a: u16, v: u8) -> Decision
    ensures { decided result ≡ byte_decision m (lent mem.now dev.now) a v }
{
    let place = map::target_of(m, mem.len(), dev.len(), a);
    if !map::is_somewhere(place) {
        return Decision {
            outcome: Ok(Stored::Failed),
            changes: Changes::Nothing,
        };
    }
    let x = Change {
        address: a,
        place,
        byte: v,
    };
    Decision {
        outcome: Ok(Stored::Done),
        changes: Changes::One(x),
    }
}

// What storing a word comes to.
#[tactic(auto, unfolding(crate::specs::Words::word_decision, crate::specs::Words::word_stored, crate::specs::Words::word_changes, crate::specs::Words::change_at, crate::specs::Bytes::takes, crate::specs::Bytes::target_in))]
pub fn decide_word(m: Map, mem: &[u8], dev: &[u8], a: u16, w: u16) -> Decision
    ensures { decided result ≡ word_decision m (lent mem.now dev.now) a w }
{
    let place = map::target_of(m, mem.len(), dev.len(), a);
    if !map::is_somewhere(place) {
        return Decision {
            outcome: Ok(Stored::Failed),
            changes: Changes::Nothing,
        };
    }
    let first = Change {
        address: a,
        place,
        byte: base::low(w),
    };
    match base::second_address(a) {
        Some(b) => decide_high(m, mem, dev, b, w, first),
        None => Decision {
            outcome: Err(Refusal::AddressOverflow),
            changes: Changes::Nothing,
        },
    }
}

// The same, once the low byte is known to be taken and the high byte to have an address.
#[tactic(auto, unfolding(crate::specs::Words::byte_stored, crate::specs::Words::high_change, crate::specs::Words::change_at, crate::specs::Bytes::takes, crate::specs::Bytes::target_in))]
fn decide_high(m: Map, mem: &[u8], dev: &[u8], a: u16, w: u16, first: Change) -> Decision
    ensures { decided result ≡ decides (is (byte_stored m (lent mem.now dev.now) a)) (high_change m (lent mem.now dev.now) a (high_of w) first) }
{
    let place = map::target_of(m, mem.len(), dev.len(), a);
    if !map::is_somewhere(place) {
        return Decision {
            outcome: Ok(Stored::Failed),
            changes: Changes::One(first),
        };
    }
    let second = Change {
        address: a,
        place,
        byte: base::high(w),
    };
    Decision {
        outcome: Ok(Stored::Done),
        changes: Changes::Two(first, second),
    }
}

// Makes the stores that were decided.
#[tactic(auto, unfolding(crate::specs::Words::made))]
pub fn make(c: Changes, mem: &mut [u8], dev: &mut [u8])
    ensures { lent mem.new dev.new ≡ made c (lent mem.old dev.old) }
{
    match c {
        Changes::Nothing => {}
        Changes::One(x) => store_at(x.place, mem, dev, x.byte),
        Changes::Two(x, y) => {
            store_at(x.place, mem, dev, x.byte);
            store_at(y.place, mem, dev, y.byte);
        }
    }
}

// Stores a word, low byte first; where the high byte takes no store the low one stays.
pub fn store_word(m: Map, mem: &mut [u8], dev: &mut [u8], a: u16, w: u16) -> Result<Stored, Refusal>
    ensures result_value { told result ≡ word_stored m (lent mem.old dev.old) a }
    ensures dev_after { lent mem.new dev.new ≡ store_word m (lent mem.old dev.old) a w }
{
    let d = decide_word(m, mem, dev, a, w);
    make(d.changes, mem, dev);
    d.outcome
}
