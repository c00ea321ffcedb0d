//! The places that serve a caller.
ghost use Rattle.std.specs.Prelude.{◌≡◌, ◌+◌, ◌*◌, ◌<◌, ◌≤◌};
ghost use Rattle.mz_base.specs.Limits.{IsWithinLimits};
ghost use Rattle.mz_book.specs.Keepers.{zone_keepers};
ghost use Rattle.mz_rack.specs.Ways.{IsWayFor};
ghost use Rattle.mz_rack.specs.LargeStages.{IsLargeWay};

use mz_base::laws::good_size_is_least;
use mz_base::{Profile, Range, route};
use mz_events::Place;

/// The places that serve a caller in one range of a zone, in the order in which they are asked, and the numbers of
/// their keepers.
#[derive(Clone, Copy, Debug, PartialEq, Eq)]
pub(crate) struct Way {
    pub(crate) magazine: Place,
    pub(crate) depot: Place,
    pub(crate) zone: u32,
    /// The pages of a region.
    pub(crate) pages: u64,
    /// The numbers of the keepers of the magazine, the depot, large of the zone, and the free pages.
    pub(crate) k: usize,
    pub(crate) d: usize,
    pub(crate) l: usize,
    pub(crate) p: usize,
}

/// The way of a caller's requests for `n` bytes, which are tiny or small, in a zone.
pub(crate) fn find_way(p: &Profile, zone: u32, caller: u32, n: u64) -> Way
    requires limits { IsWithinLimits p.now }
    requires zone { zone < p.now.zones }
    requires small { n ≤ 32768 }
    ensures { IsWayFor p.now caller zone n result }
{
    good_size_is_least();
    let mag = caller % p.magazines;
    let m = p.magazines as usize;
    let first = first_of(p, zone);
    let pages = first_of(p, p.zones);
    if route(n) == Range::Tiny {
        Way {
            magazine: Place::Tiny { zone, mag },
            depot: Place::TinyDepot { zone },
            zone,
            pages: 64,
            k: first + mag as usize,
            d: first + m,
            l: first + 2 * m + 2,
            p: pages,
        }
    } else {
        Way {
            magazine: Place::Small { zone, mag },
            depot: Place::SmallDepot { zone },
            zone,
            pages: 512,
            k: first + m + 1 + mag as usize,
            d: first + 2 * m + 1,
            l: first + 2 * m + 2,
            p: pages,
        }
    }
}

/// Large of a zone and the free pages, which serve large requests, by the numbers of their keepers.
#[derive(Clone, Copy, Debug, PartialEq, Eq)]
pub(crate) struct LargeWay {
    pub(crate) zone: u32,
    pub(crate) l: usize,
    pub(crate) p: usize,
}

/// The way of large requests in a zone.
pub(crate) fn find_large_way(p: &Profile, zone: u32) -> LargeWay
    requires limits { IsWithinLimits p.now }
    requires zone { zone < p.now.zones }
    ensures way { IsLargeWay p.now result }
    ensures in_zone { result.zone ≡ zone }
{
    LargeWay {
        zone,
        l: first_of(p, zone) + 2 * p.magazines as usize + 2,
        p: first_of(p, p.zones),
    }
}

// The number of the first keeper of a zone, or behind those of all zones.
fn first_of(p: &Profile, zone: u32) -> usize
    requires limits { IsWithinLimits p.now }
    requires zone { zone ≤ p.now.zones }
    ensures first { result ≡ zone * zone_keepers p.now }
    ensures small { result ≤ 140 }
{
    zone as usize * (2 * p.magazines as usize + 3)
}
