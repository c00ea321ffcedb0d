//! Where a block may lie, and where a new one is placed.
ghost use Rattle.std.specs.Prelude.{◌≡◌, ℕ, ◌+◌, ◌-◌, ◌*◌, ◌/◌, ◌%◌, ◌<◌, ◌≤◌, ◌&&◌, ◌||◌, ◌==◌, length, map, drop, nat_le, not, List, Option, IsTrue, IfSome};
ghost use Rattle.std.specs.Option.{option_map};
ghost use Rattle.mz_base.specs.Space.{block_at, run_at, bytes_of, same_block, same_run};
ghost use Rattle.mz_holding.specs.declared.extent.Extent.{Extent as extent};
ghost use Rattle.mz_events.specs.Places.{is_magazine, is_depot, is_large as is_large_place, is_size_of, quantum_of};
ghost use Rattle.mz_events.specs.Room.{run_fits, any_fits as some_fits, best_fit as best_fit_of, better as better_of};
ghost use Rattle.mz_events.specs.Placement.{serves as serves_for, is_placed_in_magazine as placed_in_magazine, is_placed_in_large as placed_in_large};
ghost use Rattle.mz_base.specs.Lists.{has_run as some_run, has_block as some_block};
ghost use Rattle.mz_events.specs.Changes.{run_of};
ghost use Rattle.mz_holding.specs.Gaps.{far};
ghost use Rattle.mz_holding.specs.HeldRuns.{block_of, run_of_extent, run_of_held, live_in_runs, kept_in, AreRunsInOrder};

use crate::extent::Extent;
use crate::held::Held;
use crate::runs::{has_block, has_run, is_at_front};
use mz_base::PAGE;
use mz_events::Place;
use mz_events::laws::best_fits;

/// Whether the place is large of a zone.
pub fn is_large(k: Place) -> bool
    ensures { result ≡ is_large_place k }
{
    matches!(k, Place::Large { .. })
}

/// Whether the size is one of the place's range.
pub fn is_size(k: Place, n: u64) -> bool
    ensures { result ≡ is_size_of k n }
{
    match k {
        Place::Tiny { .. } | Place::TinyDepot { .. } => n % 16 == 0 && 16 <= n && n <= 1_008,
        Place::Small { .. } | Place::SmallDepot { .. } => {
            n % 512 == 0 && 1_024 <= n && n <= 32_768
        }
        Place::Large { .. } => n % PAGE == 0 && 49_152 <= n,
        Place::Nano => n % 16 == 0 && 16 <= n && n <= 256,
        Place::Pages => false,
    }
}

/// Whether the `n` bytes from `a` are whole quanta, which large doesn't ask.
pub fn is_whole(k: Place, a: u64, n: u64) -> bool
    requires { IsTrue (is_magazine k || is_depot k || is_large_place k) }
    ensures { result ≡ (is_large_place k || ((a % quantum_of k == 0) && (n % quantum_of k == 0))) }
{
    match k {
        Place::Tiny { .. } | Place::TinyDepot { .. } => a % 16 == 0 && n % 16 == 0,
        Place::Small { .. } | Place::SmallDepot { .. } => a % 512 == 0 && n % 512 == 0,
        _ => true,
    }
}

// The cached run that fits best.
fn best_fit(cached: &[Extent], pages: u64) -> Option<Extent>
    ensures { option_map run_of_extent result ≡ best_fit_of (map run_of_extent cached.now) pages }
{
    let mut best: Option<Extent> = None;
    let mut i = cached.len();
    while i > 0 {
        i -= 1;
        let run = cached[i];
        if fits(run, pages) {
            best = Some(better(run, best));
        }
    }
    best
}

// Whether a cached run fits so many pages.
fn fits(run: Extent, pages: u64) -> bool
    ensures { result ≡ run_fits pages (run_of_extent run) }
{
    pages <= run.len && run.len - pages < pages
}

// Of two runs that fit the one with fewer pages, and of equals the first.
fn better(run: Extent, best: Option<Extent>) -> Extent
    ensures { run_of_extent result ≡ better_of (run_of_extent run) (option_map run_of_extent best) }
{
    match best {
        Some(other) => if other.len < run.len { other } else { run },
        None => run,
    }
}

/// Whether a new block may have this extent, as far as it alone goes: its size is one of the range, its address is aligned, and
/// it is of whole quanta.
pub fn is_new_extent(k: Place, a: u64, n: u64, al: u64) -> bool
    requires { IsTrue (is_magazine k || is_depot k || is_large_place k) }
    ensures { result ≡ (is_size_of k n && nat_le 1 al && (a % al == 0) && (is_large_place k || ((a % quantum_of k == 0) && (n % quantum_of k == 0)))) }
{
    is_size(k, n) && 1 <= al && a % al == 0 && is_whole(k, a, n)
}

/// The same of a block that is resized, which needs no alignment.
pub fn is_other_extent(k: Place, a: u64, n: u64) -> bool
    requires { IsTrue (is_magazine k || is_depot k || is_large_place k) }
    ensures { result ≡ (is_size_of k n && (is_large_place k || ((a % quantum_of k == 0) && (n % quantum_of k == 0)))) }
{
    is_size(k, n) && is_whole(k, a, n)
}

/// Whether some cached run fits so many pages.
pub fn any_fits(cached: &[Extent], pages: u64) -> bool
    ensures { result ≡ some_fits (map run_of_extent cached.now) pages }
{
    for run in cached {
        if fits(*run, pages) {
            return true;
        }
    }
    false
}

// Whether the last freed block serves a request for its size.
fn serves(freed: Extent, n: u64, al: u64) -> bool
    requires { 1 ≤ al }
    ensures { result ≡ serves_for (block_of freed) n al }
{
    freed.len == n && freed.first % al == 0
}

// Whether the extent is this block.
fn is_block(extent: Extent, a: u64, n: u64) -> bool
    ensures { result ≡ same_block (block_of extent) (block_at a n) }
{
    extent.first == a && extent.len == n
}

/// Whether a magazine would place a new block there: on the last freed block where that serves, and else at a front.
pub fn is_placed_in_magazine(runs: &[Held], freed: Option<Extent>, a: u64, n: u64, al: u64) -> bool
    requires in_order { AreRunsInOrder runs.now }
    requires some { 1 ≤ n }
    requires whole { 1 ≤ al }
    requires aligned { a % al ≡ 0 }
    requires byte { IfSome freed (λ e. 1 ≤ e.len) }
    requires fits { IfSome freed (λ e. e.first + e.len ≤ far) }
    ensures { (cached : List extent) → result ≡ placed_in_magazine (kept_in runs.now freed cached) (block_at a n) al }
{
    match freed {
        Some(block) => {
            if serves(block, n, al) {
                is_block(block, a, n)
            } else {
                is_at_front(runs, freed, a, n, al)
            }
        }
        None => is_at_front(runs, freed, a, n, al),
    }
}

/// Whether large would place a new block there: on the cached run that fits best, and where none fits on a whole run that is
/// neither cached nor live.
pub fn is_placed_in_large(runs: &[Held], cached: &[Extent], a: u64, n: u64) -> bool
    requires { AreRunsInOrder runs.now }
    ensures { (freed : Option extent) → result ≡ placed_in_large (kept_in runs.now freed cached.now) (block_at a n) }
{
    best_fits();
    if !is_whole_run(a, n) {
        return false;
    }
    match best_fit(cached, n / PAGE) {
        Some(best) => is_run(best, a / PAGE, n / PAGE),
        None => is_spare(runs, cached, a, n),
    }
}

// Whether the bytes are those of whole pages.
fn is_whole_run(a: u64, n: u64) -> bool
    ensures { result ≡ same_block (block_at a n) (bytes_of (run_of (block_at a n))) }
{
    a == a / PAGE * PAGE && n == n / PAGE * PAGE
}

// Whether the block's run is one of the place's that is neither cached nor live.
fn is_spare(runs: &[Held], cached: &[Extent], a: u64, n: u64) -> bool
    requires { AreRunsInOrder runs.now }
    ensures { result ≡ (some_run (map run_of_held runs.now) (run_of (block_at a n)) && not (some_run (map run_of_extent cached.now) (run_of (block_at a n))) && not (some_block (live_in_runs runs.now) (block_at a n))) }
{
    let run = has_run(runs, a / PAGE, n / PAGE);
    let idle = is_cached(cached, a / PAGE, n / PAGE);
    let live = has_block(runs, a, n);
    run && !idle && !live
}

/// Whether the extent is this run.
pub fn is_run(extent: Extent, first: u64, pages: u64) -> bool
    ensures is { result ≡ same_run (run_of_extent extent) (run_at first pages) }
    ensures also { result ≡ same_run (run_at first pages) (run_of_extent extent) }
{
    extent.first == first && extent.len == pages
}

// Whether the run is one of those that are cached.
fn is_cached(cached: &[Extent], first: u64, pages: u64) -> bool
    ensures { result ≡ some_run (map run_of_extent cached.now) (run_at first pages) }
{
    for run in cached {
        if is_run(*run, first, pages) {
            return true;
        }
    }
    false
}
