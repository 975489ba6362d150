// Loads, stores and Cpy: what goes between registers and memory. Memory is read here, and nothing is stored yet.
// Words and bytes have functions of their own here: they call four of memory's, so that one over closures would be longer than both.
ghost use Rattle.std.specs.Prelude.{◌≡◌};
ghost use Rattle.base.specs.Told.{told};
ghost use Rattle.memory.specs.Bytes.{lent};
ghost use Rattle.memory.specs.Words.{decided};
ghost use Rattle.machine.specs.Acts as act;
ghost use Rattle.machine.specs.Moves.{Moves};
ghost use Rattle.machine.specs.Plan.{finished};

use crate::Move;
use crate::operands::{fail, get};
use crate::plans::{go_on, stay};
use base::Refusal;
use instruction::Register;
use map::{Map, Place};
use memory::{Changes, Decision, Stored};

// A word that was read goes into r; where there was none, r stays.
#[tactic(auto, unfolding(crate::specs::Acts::word_loaded, crate::specs::Plan::finished))]
fn load_word(s: &[u16; 8], r: Register, x: Result<Option<u16>, Refusal>) -> Result<Move, Refusal>
    ensures { Moves s.now result (λ g. finished g (act.word_loaded g r (told x))) }
{
    match x? {
        Some(w) => go_on(s, r, w, Changes::Nothing),
        None => stay(s, false, Changes::Nothing),
    }
}

#[tactic(auto, unfolding(crate::specs::Acts::byte_loaded))]
fn load_byte(s: &[u16; 8], r: Register, x: Option<(u8, Place)>) -> Result<Move, Refusal>
    ensures { Moves s.now result (λ g. finished g (act.byte_loaded g r x)) }
{
    match x {
        Some((v, _)) => go_on(s, r, v as u16, Changes::Nothing),
        None => stay(s, false, Changes::Nothing),
    }
}

// A store that memory has decided. A failed one sets the flags, and keeps the byte that was taken.
#[tactic(auto, unfolding(crate::specs::Acts::storing, crate::specs::Acts::ended, crate::specs::Acts::fault, crate::specs::Plan::finished))]
fn end_store(s: &[u16; 8], d: Decision) -> Result<Move, Refusal>
    ensures { Moves s.now result (λ g. finished g (act.storing g (decided d))) }
{
    match d.outcome? {
        Stored::Done => stay(s, false, d.changes),
        Stored::Failed => go_on(s, Register::FLAGS, fail(s), d.changes),
    }
}

#[tactic(auto, unfolding(crate::specs::Acts::word_at))]
fn word_at(
    m: Map,
    mem: &[u8],
    dev: &[u8],
    s: &[u16; 8],
    r: Register,
    store: bool,
    a: u16,
) -> Result<Move, Refusal>
    ensures { Moves s.now result (λ g. finished g (act.word_at m (lent mem.now dev.now) g r store a)) }
{
    if store {
        end_store(s, memory::decide_word(m, mem, dev, a, get(s, r)))
    } else {
        load_word(s, r, memory::read_word(m, mem, dev, a))
    }
}

#[tactic(auto, unfolding(crate::specs::Acts::byte_at))]
fn byte_at(
    m: Map,
    mem: &[u8],
    dev: &[u8],
    s: &[u16; 8],
    r: Register,
    store: bool,
    a: u16,
) -> Result<Move, Refusal>
    ensures { Moves s.now result (λ g. finished g (act.byte_at m (lent mem.now dev.now) g r store a)) }
{
    if store {
        end_store(s, memory::decide_byte(m, mem, dev, a, base::low(get(s, r))))
    } else {
        load_byte(s, r, memory::read_byte(m, mem, dev, a))
    }
}

#[tactic(auto, unfolding(crate::specs::Acts::addressed, crate::specs::Plan::finished))]
pub fn ldr_str(
    m: Map,
    mem: &[u8],
    dev: &[u8],
    s: &[u16; 8],
    r: Register,
    addr: Register,
    store: bool,
    shift: u8,
) -> Result<Move, Refusal>
    ensures { Moves s.now result (λ g. finished g (act.addressed g addr shift (act.word_at m (lent mem.now dev.now) g r store))) }
{
    let a = base::base_plus_shift(get(s, addr), shift).ok_or(Refusal::AddressOverflow)?;
    word_at(m, mem, dev, s, r, store, a)
}

#[tactic(auto, unfolding(crate::specs::Acts::addressed, crate::specs::Plan::finished))]
pub fn ldb_stb(
    m: Map,
    mem: &[u8],
    dev: &[u8],
    s: &[u16; 8],
    r: Register,
    addr: Register,
    store: bool,
    shift: u8,
) -> Result<Move, Refusal>
    ensures { Moves s.now result (λ g. finished g (act.addressed g addr shift (act.byte_at m (lent mem.now dev.now) g r store))) }
{
    let a = base::base_plus_shift(get(s, addr), shift).ok_or(Refusal::AddressOverflow)?;
    byte_at(m, mem, dev, s, r, store, a)
}

#[tactic(auto, unfolding(crate::specs::Acts::cpy, crate::specs::Acts::copied, crate::specs::Acts::fault))]
pub fn cpy(
    m: Map,
    mem: &[u8],
    dev: &[u8],
    s: &[u16; 8],
    src: Register,
    dst: Register,
) -> Result<Move, Refusal>
    ensures { Moves s.now result (λ g. finished g (act.cpy m (lent mem.now dev.now) g src dst)) }
{
    match memory::read_byte(m, mem, dev, get(s, src)) {
        Some((v, _)) => end_store(s, memory::decide_byte(m, mem, dev, get(s, dst), v)),
        None => go_on(s, Register::FLAGS, fail(s), Changes::Nothing),
    }
}
