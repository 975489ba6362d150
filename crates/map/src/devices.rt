// The device table.
ghost use Rattle.std.specs.Prelude.{◌≡◌, length, ◌+◌, ◌≤◌};
ghost use Rattle.map.specs.Devices.{device_covers, covers_either, device_size, devices_overlap, device_in_range, device_is_set, used_devices, total};

use crate::entries::{Entry, in_use};
use crate::{Device, Map};

impl Device {
    // Whether it covers an address.
    #[tactic(auto, unfolding(crate::specs::Devices::device_covers))]
    pub(crate) fn covers(self, a: u16) -> bool
        ensures { result ≡ device_covers a self }
    {
        self.start <= a && a < self.end
    }

    // Whether it covers an address or the next one. One that starts at its end, or past it, covers none.
    #[tactic(auto, unfolding(crate::specs::Devices::covers_either, crate::specs::Devices::device_covers))]
    pub(crate) fn covers_either(self, a: u16, b: u16) -> bool
        requires { b ≡ a + 1 }
        ensures { result ≡ covers_either a b self }
    {
        self.start <= b && a < self.end && self.start < self.end
    }

    // How many bytes of the device buffer it has: none where it starts past its end.
    #[tactic(auto, unfolding(crate::specs::Devices::device_size))]
    pub(crate) fn size(self) -> usize
        ensures value { result ≡ device_size self }
        ensures upper_bound { result ≤ 65535 }
    {
        self.end.saturating_sub(self.start) as usize
    }
}

impl Entry for Device {
    ghost in_range = { device_in_range };

    ghost is_set = { device_is_set };

    ghost overlaps = { devices_overlap };

    // Its end is in range by its width, so it is left to test that it does not start past it.
    #[tactic(auto, unfolding(crate::specs::Devices::device_in_range))]
    fn in_range(self) -> bool {
        self.start <= self.end
    }

    #[tactic(auto, unfolding(crate::specs::Devices::device_is_set))]
    fn is_set(self) -> bool {
        self.start != 0 || self.end != 0
    }

    #[tactic(auto, unfolding(crate::specs::Devices::devices_overlap))]
    fn overlaps(self, other: Device) -> bool {
        self.start <= other.end && other.start <= self.end
    }
}

impl Map {
    // The devices in use.
    #[tactic(auto, unfolding(crate::specs::Devices::used_devices))]
    pub(crate) fn used_devices(&self) -> &[Device]
        ensures value { result.now ≡ used_devices self.now }
        ensures upper_bound { length result.now ≤ 8 }
    {
        in_use(self.devices, &self.device)
    }
}

// How many bytes of the device buffer the devices in use have together.
#[tactic(auto, using(crate::proofs::Scans::total_turn, crate::proofs::Scans::total_end))]
pub fn device_bytes(m: Map) -> usize
    ensures value { result ≡ total (used_devices m) }
    ensures upper_bound { result ≤ 524280 }
{
    let mut sum: usize = 0;
    for d in m.used_devices() {
        sum += d.size();
    }
    sum
}
