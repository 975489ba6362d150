// Where the byte of an address is, and whether it takes a store.
ghost use Rattle.std.specs.Prelude.{◌≡◌, ◌+◌, ◌≤◌};
ghost use Rattle.map.specs.Tables.{any};
ghost use Rattle.map.specs.Devices.{covers_either, used_devices};
ghost use Rattle.map.specs.Places.{place, in_bank, in_linear, target, somewhere, linear_word};

use crate::entries::used;
use crate::regions::is_protected;
use crate::{Map, Place};

// Where the byte of address a is, with mem bytes of linear memory and dev bytes in the device buffer.
pub fn place_of(m: Map, mem: usize, dev: usize, a: u16) -> Place
    ensures { result ≡ place m mem dev a }
{
    let mut base: usize = 0;
    for number in 0..used(m.devices) {
        let d = m.device[number];
        if d.covers(a) {
            return in_bank(number, a - d.start, base, dev);
        }
        base += d.size();
    }
    in_linear(mem, a)
}

// A device's byte, where the device buffer is long enough to have it.
#[tactic(auto, unfolding(crate::specs::Places::in_bank))]
fn in_bank(number: usize, offset: u16, base: usize, dev: usize) -> Place
    requires { base ≤ 524280 }
    ensures { result ≡ in_bank number offset base dev }
{
    let index = base + offset as usize;
    if index < dev {
        return Place::Bank {
            number,
            offset,
            index,
        };
    }
    Place::Nowhere
}

#[tactic(auto, unfolding(crate::specs::Places::in_linear))]
fn in_linear(mem: usize, a: u16) -> Place
    ensures { result ≡ in_linear mem a }
{
    let i = a as usize;
    if i < mem {
        return Place::Linear(i);
    }
    Place::Nowhere
}

// Where a store to address a goes: a protected linear byte takes none.
#[tactic(auto, unfolding(crate::specs::Places::target, crate::specs::Places::guard))]
pub fn target_of(m: Map, mem: usize, dev: usize, a: u16) -> Place
    ensures { result ≡ target m mem dev a }
{
    match place_of(m, mem, dev, a) {
        Place::Linear(_) if is_protected(m, a) => Place::Nowhere,
        place => place,
    }
}

// Whether there is a byte at a place.
#[tactic(auto, unfolding(crate::specs::Places::somewhere))]
pub fn is_somewhere(p: Place) -> bool
    ensures { result ≡ somewhere p }
{
    !matches!(p, Place::Nowhere)
}

// Whether a device in use covers an address or the next one.
fn device_within(m: Map, a: u16, b: u16) -> bool
    requires { b ≡ a + 1 }
    ensures { result ≡ any (covers_either a b) (used_devices m) }
{
    for number in 0..used(m.devices) {
        if m.device[number].covers_either(a, b) {
            return true;
        }
    }
    false
}

// Whether both bytes of the word at a are linear: they are there, and no device covers one of them.
pub fn is_linear_word(m: Map, mem: usize, a: u16) -> bool
    ensures { result ≡ linear_word m mem a }
{
    match a.checked_add(1) {
        Some(b) => (b as usize) < mem && !device_within(m, a, b),
        None => false,
    }
}
