// Both tables: when they are valid, and how an entry is added.
ghost use Rattle.std.specs.Prelude.{◌≡◌};
ghost use Rattle.base.specs.Numbers.{answer_number};
ghost use Rattle.map.specs.Valid.{valid};
ghost use Rattle.map.specs.Entries.{empty_map, with_region, region_number, region_map, protect_number, protect_map, with_device, device_number, device_map, register_number, register_map};

use crate::devices::device_bytes;
use crate::entries::{is_valid, meets};
use crate::{Device, Map, Region};
use base::Refusal;

// No region and no device.
pub fn empty() -> Map
    ensures { result ≡ empty_map }
{
    let r = Region { start: 0, len: 0 };
    let d = Device { start: 0, end: 0 };
    Map {
        regions: 0,
        region: [r; 8],
        devices: 0,
        device: [d; 8],
    }
}

// Whether both tables are valid, and the device buffer has room for the devices.
#[tactic(auto, unfolding(crate::specs::Valid::valid, crate::specs::Valid::valid_regions, crate::specs::Valid::valid_devices, crate::specs::Regions::used_regions, crate::specs::Regions::spare_regions, crate::specs::Devices::used_devices, crate::specs::Devices::spare_devices))]
pub fn valid(m: Map, dev: &[u8]) -> bool
    ensures { result ≡ valid m dev.now }
{
    is_valid(m.regions, &m.region) && is_valid(m.devices, &m.device) && device_bytes(m) <= dev.len()
}

// The region in the next entry, where it fits: 12, 13, 14. The tables are taken as they are.
#[tactic(auto, unfolding(crate::specs::Entries::region_number, crate::specs::Entries::protect_order, crate::specs::Entries::region_map, crate::specs::Entries::with_region))]
pub fn add_region(m: &mut Map, r: Region) -> Result<(), Refusal>
    ensures answer_value { answer_number result ≡ region_number m.old r }
    ensures map_value { m.new ≡ region_map m.old r }
{
    if 65535 - r.start < r.len {
        return Err(Refusal::RangeOverflow);
    }
    if meets(r, m.used_regions()) {
        return Err(Refusal::Overlap);
    }
    let n = m.regions as usize;
    if 8 <= n {
        return Err(Refusal::TableFull);
    }
    m.region[n] = r;
    m.regions += 1;
    Ok(())
}

// Protects the addresses from start on, len of them.
#[tactic(auto, unfolding(crate::specs::Entries::protect_number, crate::specs::Entries::protect_map, crate::specs::Entries::region_number, crate::specs::Entries::region_map))]
pub fn protect(m: &mut Map, dev: &[u8], start: u16, len: u16) -> Result<(), Refusal>
    ensures answer_value { answer_number result ≡ protect_number m.old dev.now start len }
    ensures map_value { m.new ≡ protect_map m.old dev.now start len }
{
    if !valid(*m, dev) {
        return Err(Refusal::BadState);
    }
    add_region(m, Region { start, len })
}

// The device in the next entry, where it fits: 13, 14, 17. The tables are taken as they are.
#[tactic(auto, unfolding(crate::specs::Entries::device_number, crate::specs::Entries::device_order, crate::specs::Entries::device_map, crate::specs::Entries::with_device))]
fn add_device(m: &mut Map, room: usize, d: Device) -> Result<(), Refusal>
    ensures answer_value { answer_number result ≡ device_number m.old room d }
    ensures map_value { m.new ≡ device_map m.old room d }
{
    if meets(d, m.used_devices()) {
        return Err(Refusal::Overlap);
    }
    let n = m.devices as usize;
    if 8 <= n {
        return Err(Refusal::TableFull);
    }
    if room < device_bytes(*m) + d.size() {
        return Err(Refusal::NoDeviceRoom);
    }
    m.device[n] = d;
    m.devices += 1;
    Ok(())
}

// A new device over the addresses from start on, size of them, with the next size bytes of the device buffer.
#[tactic(auto, unfolding(crate::specs::Entries::register_number, crate::specs::Entries::register_map, crate::specs::Entries::device_number, crate::specs::Entries::device_map, crate::specs::Entries::device_order))]
pub fn register_device(m: &mut Map, dev: &[u8], start: u16, size: u16) -> Result<(), Refusal>
    ensures answer_value { answer_number result ≡ register_number m.old dev.now start size }
    ensures map_value { m.new ≡ register_map m.old dev.now start size }
{
    if !valid(*m, dev) {
        return Err(Refusal::BadState);
    }
    let end = start.checked_add(size).ok_or(Refusal::RangeOverflow)?;
    add_device(m, dev.len(), Device { start, end })
}
