// The table of protected regions.
ghost use Rattle.std.specs.Prelude.{◌≡◌};
ghost use Rattle.map.specs.Regions.{region_covers, regions_overlap, region_in_range, region_is_set, used_regions, protected};

use crate::entries::{Entry, in_use, used};
use crate::{Map, Region};

impl Region {
    // Whether it protects an address.
    #[tactic(auto, unfolding(crate::specs::Regions::region_covers))]
    fn covers(self, a: u16) -> bool
        ensures { result ≡ region_covers a self }
    {
        self.start <= a && a - self.start < self.len
    }
}

impl Entry for Region {
    ghost in_range = { region_in_range };

    ghost is_set = { region_is_set };

    ghost overlaps = { regions_overlap };

    #[tactic(auto, unfolding(crate::specs::Regions::region_in_range))]
    fn in_range(self) -> bool {
        self.len <= 65535 - self.start
    }

    #[tactic(auto, unfolding(crate::specs::Regions::region_is_set))]
    fn is_set(self) -> bool {
        self.start != 0 || self.len != 0
    }

    #[tactic(auto, unfolding(crate::specs::Regions::regions_overlap))]
    fn overlaps(self, other: Region) -> bool {
        other.covers(self.start) || self.covers(other.start)
    }
}

impl Map {
    // The regions in use.
    #[tactic(auto, unfolding(crate::specs::Regions::used_regions))]
    pub(crate) fn used_regions(&self) -> &[Region]
        ensures { result.now ≡ used_regions self.now }
    {
        in_use(self.regions, &self.region)
    }
}

// Whether a region in use protects address a.
pub fn is_protected(m: Map, a: u16) -> bool
    ensures { result ≡ protected m a }
{
    for i in 0..used(m.regions) {
        if m.region[i].covers(a) {
            return true;
        }
    }
    false
}
