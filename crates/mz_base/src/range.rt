ghost use Rattle.std.specs.Prelude.{◌≡◌, ◌<◌, ◌^◌};
ghost use Rattle.mz_base.specs.Sizes.{route_of, unit_of, units_of, good_size_within};
ghost use Rattle.mz_base.specs.Limits.{IsWithinLimits};

use crate::profile::Profile;

/// The bytes of a page.
pub const PAGE: u64 = 16_384;

/// The parts of a zone that serve requests of different sizes.
#[derive(Clone, Copy, Debug, PartialEq, Eq)]
pub enum Range {
    /// Up to 256 bytes, beside tiny, in pages of its own.
    Nano,
    /// Up to 1,008 bytes, in quanta of 16.
    Tiny,
    /// Up to 32,768 bytes, in quanta of 512.
    Small,
    /// Between small and large, in a wide profile; no request is routed here yet.
    Medium,
    /// More than that, in whole pages.
    Large,
}

/// The range that serves a request of `n` bytes: tiny, small or large. Whether a small enough
/// request lies in nano is its zone's choice.
pub fn route(n: u64) -> Range
    ensures { result ≡ route_of n }
{
    match n {
        0..=1_008 => Range::Tiny,
        1_009..=32_768 => Range::Small,
        _ => Range::Large,
    }
}

/// The bytes in which a range counts sizes.
pub fn unit(r: Range) -> u64
    ensures { result ≡ unit_of r }
{
    1 << unit_shift(r)
}

/// The units of its range that a request of `n` bytes takes, at least 1.
pub fn units(n: u64) -> u64
    ensures { result ≡ units_of n }
{
    ((n.max(1) - 1) >> unit_shift(route(n))) + 1
}

/// The size of the block that serves a request of `n` bytes, or None where the whole space of
/// the profile is smaller.
pub fn good_size(p: &Profile, n: u64) -> Option<u64>
    requires { IsWithinLimits p.now }
    ensures { result ≡ good_size_within p.now n }
{
    let shift = unit_shift(route(n));
    let space = p.pages * PAGE;
    let units = units(n);
    if units <= space >> shift {
        Some(units << shift)
    } else {
        None
    }
}

// A unit is 2 to the power of this.
fn unit_shift(r: Range) -> u32
    ensures value { 2 ^ result ≡ unit_of r }
    ensures small { result < 16 }
{
    match r {
        Range::Nano | Range::Tiny => 4,
        Range::Small => 9,
        Range::Medium => 15,
        Range::Large => 14,
    }
}
