//! A region on its way from one keeper to another.

ghost use Rattle.std.specs.Prelude.{◌≡◌};

use mz_base::PAGE;
use mz_region::Region;

/// A region of either range.
#[derive(Drop)]
pub(crate) enum AnyRegion {
    Tiny(Region<16, 65_536>),
    Small(Region<512, 16_384>),
}

impl AnyRegion {
    ghost use Rattle.mz_rack.specs.Regions.{run_in};

    /// Its first page.
    pub(crate) fn first_page(&self) -> u64
        ensures { result ≡ (run_in self.now).first }
    {
        match self {
            AnyRegion::Tiny(region) => region.first() / PAGE,
            AnyRegion::Small(region) => region.first() / PAGE,
        }
    }
}
