ghost use Rattle.std.specs.Prelude.{◌≡◌, length, ◌==◌};
ghost use Rattle.records.specs.Places.{no_regions, with_region, regions_of};

use super::Regions;
use ei::device::Region;

impl Regions {
    #[tactic(auto, using(crate::proofs::Places::same_regions), unfolding(crate::specs::Places::no_regions))]
    pub fn new() -> Regions
        ensures { result ≡ no_regions }
    {
        let none = Region {
            x: 0,
            y: 0,
            width: 0,
            height: 0,
            scale: 0.0,
            mapping_id: None,
        };
        Regions {
            items: [none; 8],
            count: 0,
        }
    }

    pub fn is_full(&self) -> bool
        ensures { result ≡ (length (regions_of self.now) == 8) }
    {
        self.count == 8
    }

    // One region more, behind the others; a ninth is left out.
    pub fn push(&mut self, region: Region)
        ensures { self.new ≡ with_region region self.old }
    {
        if !self.is_full() {
            self.items[self.count] = region;
            self.count += 1;
        }
    }

    // The regions in use.
    pub fn as_slice(&self) -> &[Region]
        ensures { result.now ≡ regions_of self.now }
    {
        &self.items[..self.count]
    }
}
