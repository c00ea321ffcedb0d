//! The lowest free run in a map of the pages that are out.
ghost use Rattle.std.specs.Prelude.{◌≡◌, ◌+◌, ◌%◌, ◌^◌, ◌<◌, ◌≤◌, length, map, not, MatchOption};
ghost use Rattle.mz_pages.specs.FreeRuns.{HasNoFree, IsLowestFree};

use mz_bits::Bits;

/// The place of the lowest run of `w` pages that aren't out, at a multiple of `al` pages, where
/// place 0 is page `first`.
pub(crate) fn lowest_in(out: &Bits, first: u64, w: u64, al: u64) -> Option<u64>
    requires some { 1 ≤ w }
    requires aligned { 1 ≤ al }
    requires small { first + length out.now < 2 ^ 63 }
    ensures { MatchOption result (HasNoFree first (map not out.now) w al)
        (λ i. IsLowestFree first (map not out.now) w al (first + i)) }
{
    let mut from = 0;
    while let Some(i) = out.next_clear(from) {
        let gap = gap_to(first + i, al);
        let wanted = gap.saturating_add(w);
        let run = out.run_at(i, wanted);
        if run == wanted {
            return Some(i + gap);
        }
        from = i + run;
    }
    None
}

// How many pages lie between page `f` and the least multiple of `al` at or above it.
fn gap_to(f: u64, al: u64) -> u64
    requires { 1 ≤ al }
    ensures multiple { (f + result) % al ≡ 0 }
    ensures least { result < al }
{
    let over = f % al;
    if over == 0 { 0 } else { al - over }
}
