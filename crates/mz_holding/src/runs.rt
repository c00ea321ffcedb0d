//! Searches over the runs of a place, which stand in ascending order.
ghost use Rattle.std.specs.Prelude.{◌≡◌, ℕ, ◌+◌, ◌-◌, ◌*◌, ◌/◌, ◌%◌, ◌^◌, ◌<◌, ◌≤◌, ◌&&◌, ◌||◌, ◌==◌, ◌++◌, length, map, take, drop, filter, fold, find, sum_by, nat_lt, slice_get, None, List, Option, IfSome, IfNone, IfOk, OnOk, OnErr, IsTrue};
ghost use Rattle.std.specs.List.{All, list_any, list_all};
ghost use Rattle.std.specs.Option.{option_map, option_to_list};
ghost use Rattle.mz_base.specs.Space.{block_at, run_at, blocks_apart, runs_apart, bytes_of};
ghost use Rattle.mz_base.specs.Lists.{has_run as some_run, has_block as some_block, run_bytes, blocks_in, add_block as with_block, drop_block as without_block, add_run as with_run, drop_run as without_run};
ghost use Rattle.mz_events.specs.Changes.{region_at};
ghost use Rattle.mz_base.specs.Room.{lies_in, has_room, is_at_front as some_front};
ghost use Rattle.mz_holding.specs.Gaps.{far};
ghost use Rattle.mz_holding.specs.LiveBlocks.{page_limit};
ghost use Rattle.mz_holding.specs.HeldRuns.{block_of, run_of_extent, run_of_held, live_of_held, live_in_runs, HasPage, AreRunsInOrder};

use crate::extent::Extent;
use crate::held::Held;
use mz_base::PAGE;
use std::alloc::{AllocError, Global};

/// How many of the runs begin at or below the page.
pub fn count_to(runs: &[Held], page: u64) -> usize
    requires { AreRunsInOrder runs.now }
    ensures within { result ≤ length runs.now }
    ensures below { All (λ h. h.first ≤ page) (take result runs.now) }
    ensures above { All (λ h. page < h.first) (drop result runs.now) }
{
    runs.partition_point(|held| held.first() <= page)
}

/// Where the run stands that has the page.
pub fn index_with(runs: &[Held], page: u64) -> Option<usize>
    requires { AreRunsInOrder runs.now }
    ensures none { IfNone result (HasPage runs.now page None) }
    ensures some { IfSome result (λ i. (i < length runs.now) × HasPage runs.now page (slice_get runs.now i)) }
{
    let count = count_to(runs, page);
    if count == 0 {
        return None;
    }
    let i = count - 1;
    let held = &runs[i];
    if page < held.first() + held.pages() {
        Some(i)
    } else {
        None
    }
}

/// The run that has the page.
pub fn holder(runs: &[Held], page: u64) -> Option<&Held>
    requires { AreRunsInOrder runs.now }
    ensures { HasPage runs.now page (option_map (λ h. h.now) result) }
{
    let i = index_with(runs, page)?;
    Some(&runs[i])
}

/// The first page of the lowest run with room.
pub fn lowest_with_room(runs: &[Held], n: u64, al: u64) -> Option<u64>
    requires some { 1 ≤ n }
    requires whole { 1 ≤ al }
    ensures { result ≡ option_map (λ h. h.first) (find (λ h. has_room (run_of_held h) (live_of_held h) n al) runs.now) }
{
    for held in runs {
        if held.has_room(n, al) {
            return Some(held.first());
        }
    }
    None
}

/// Whether the `n` bytes from `a` lie in one of the runs and meet no live block there.
pub fn is_clear(runs: &[Held], a: u64, n: u64) -> bool
    requires in_order { AreRunsInOrder runs.now }
    requires some { 1 ≤ n }
    ensures { result ≡ (list_any (λ r. lies_in r a (a + n)) (map run_of_held runs.now) && list_all (λ c. blocks_apart c (block_at a n)) (live_in_runs runs.now)) }
{
    match holder(runs, a / PAGE) {
        Some(held) => held.is_clear(a, n),
        None => false,
    }
}

/// The same, where a block that begins at `a` is left aside.
pub fn is_clear_but(runs: &[Held], a: u64, n: u64) -> bool
    requires in_order { AreRunsInOrder runs.now }
    requires some { 1 ≤ n }
    ensures { result ≡ (list_any (λ r. lies_in r a (a + n)) (map run_of_held runs.now) && list_all (λ c. (c.first == a) || blocks_apart c (block_at a n)) (live_in_runs runs.now)) }
{
    match holder(runs, a / PAGE) {
        Some(held) => held.is_clear_but(a, n),
        None => false,
    }
}

/// Whether the `n` bytes from `a` are at a front, in the wide or the narrow reading.
pub fn is_at_front(runs: &[Held], freed: Option<Extent>, a: u64, n: u64, al: u64) -> bool
    requires in_order { AreRunsInOrder runs.now }
    requires some { 1 ≤ n }
    requires whole { 1 ≤ al }
    requires aligned { a % al ≡ 0 }
    requires byte { IfSome freed (λ e. 1 ≤ e.len) }
    requires fits { IfSome freed (λ e. e.first + e.len ≤ far) }
    ensures { result ≡ (some_front (map run_of_held runs.now) (live_in_runs runs.now) (block_at a n) al || some_front (map run_of_held runs.now) (option_to_list (option_map block_of freed) ++ live_in_runs runs.now) (block_at a n) al) }
{
    match holder(runs, a / PAGE) {
        Some(held) => held.is_at_front(freed, a, n, al),
        None => false,
    }
}

/// The bytes of all runs.
pub fn bytes_of_runs(runs: &[Held]) -> u64
    requires { AreRunsInOrder runs.now }
    ensures { result ≡ sum_by run_bytes (map run_of_held runs.now) }
{
    let mut all = 0;
    for held in runs {
        all += held.pages() * PAGE;
    }
    all
}

/// Whether so many idle bytes are more than one and a half of some run.
pub fn is_some_exceeded(runs: &[Held], idle: u64) -> bool
    requires { idle ≤ 2 ^ 40 }
    ensures { result ≡ list_any (λ h. nat_lt (3 * run_bytes (run_of_held h)) (2 * idle)) runs.now }
{
    runs.iter().any(|held| 3 * (held.pages() * PAGE) < 2 * idle)
}

/// The first page of the lowest sparse run.
pub fn lowest_sparse(runs: &[Held]) -> Option<u64>
    ensures { result ≡ option_map (λ h. h.first) (find (λ h. nat_lt (4 * h.used) (3 * run_bytes (run_of_held h))) runs.now) }
{
    for held in runs {
        if 4 * held.used() < 3 * (held.pages() * PAGE) {
            return Some(held.first());
        }
    }
    None
}

/// The first of the runs without live blocks.
pub fn lowest_unused(runs: &[Held]) -> Option<Extent>
    ensures { option_map run_of_extent result ≡ option_map run_of_held (find (λ h. length (live_of_held h) == 0) runs.now) }
{
    for held in runs {
        if held.is_empty() {
            return Some(Extent {
                first: held.first(),
                len: held.pages(),
            });
        }
    }
    None
}

/// Whether the run is one of these.
pub fn has_run(runs: &[Held], first: u64, pages: u64) -> bool
    requires { AreRunsInOrder runs.now }
    ensures { result ≡ some_run (map run_of_held runs.now) (run_at first pages) }
{
    match holder(runs, first) {
        Some(held) => held.is_run(first, pages),
        None => false,
    }
}

/// Whether the block is live in one of the runs.
pub fn has_block(runs: &[Held], a: u64, n: u64) -> bool
    requires { AreRunsInOrder runs.now }
    ensures { result ≡ some_block (live_in_runs runs.now) (block_at a n) }
{
    match holder(runs, a / PAGE) {
        Some(held) => held.has_block(a, n),
        None => false,
    }
}

/// Whether the run is one of these and has no live block.
pub fn is_unused(runs: &[Held], first: u64, pages: u64) -> bool
    requires { AreRunsInOrder runs.now }
    ensures { result ≡ (some_run (map run_of_held runs.now) (run_at first pages) && list_all (λ b. blocks_apart b (bytes_of (run_at first pages))) (live_in_runs runs.now)) }
{
    match holder(runs, first) {
        Some(held) => {
            if held.is_run(first, pages) {
                held.is_empty()
            } else {
                false
            }
        }
        None => false,
    }
}

/// The runs as extents.
pub fn list_runs(alloc: Global, runs: &[Held]) -> Result<Vec<Extent>, AllocError>
    ensures { IfOk result (λ v. map run_of_extent v.items ≡ map run_of_held runs.now) }
{
    let mut list = Vec::new(alloc);
    for held in runs {
        list.push(Extent {
            first: held.first(),
            len: held.pages(),
        })?;
    }
    Ok(list)
}

/// The live blocks of the runs as extents.
pub fn list_blocks(alloc: Global, runs: &[Held]) -> Result<Vec<Extent>, AllocError>
    ensures { IfOk result (λ v. map block_of v.items ≡ live_in_runs runs.now) }
{
    let mut list = Vec::new(alloc);
    for held in runs {
        held.push_to(&mut list)?;
    }
    Ok(list)
}

/// A block becomes live. It lies in one of the runs and is apart from the other live blocks.
pub fn add_block(runs: &mut Vec<Held>, a: u64, n: u64) -> Result<(), AllocError>
    requires in_order { AreRunsInOrder runs.old.items }
    requires some { 1 ≤ n }
    requires lies { IsTrue (list_any (λ r. lies_in r a (a + n)) (map run_of_held runs.old.items)) }
    requires apart { IsTrue (list_all (λ c. blocks_apart c (block_at a n)) (live_in_runs runs.old.items)) }
    ensures in_order { AreRunsInOrder runs.new.items }
    ensures runs { map run_of_held runs.new.items ≡ map run_of_held runs.old.items }
    ensures ok { OnOk result (live_in_runs runs.new.items ≡ with_block (block_at a n) (live_in_runs runs.old.items)) }
    ensures err { OnErr result (live_in_runs runs.new.items ≡ live_in_runs runs.old.items) }
{
    let i = index_with(runs, a / PAGE).unwrap();
    runs[i].add(a, n)
}

/// A live block ends.
pub fn remove_block(runs: &mut Vec<Held>, a: u64, n: u64)
    requires in_order { AreRunsInOrder runs.old.items }
    requires there { IsTrue (some_block (live_in_runs runs.old.items) (block_at a n)) }
    ensures in_order { AreRunsInOrder runs.new.items }
    ensures runs { map run_of_held runs.new.items ≡ map run_of_held runs.old.items }
    ensures blocks { live_in_runs runs.new.items ≡ without_block (block_at a n) (live_in_runs runs.old.items) }
{
    let i = index_with(runs, a / PAGE).unwrap();
    runs[i].remove(a, n);
}

/// A live block gets another size, at which it lies in one of the runs and is apart from the other live blocks still.
pub fn resize_block(runs: &mut Vec<Held>, a: u64, n: u64, m: u64) -> Result<(), AllocError>
    requires in_order { AreRunsInOrder runs.old.items }
    requires there { IsTrue (some_block (live_in_runs runs.old.items) (block_at a n)) }
    requires some { 1 ≤ m }
    requires lies { IsTrue (list_any (λ r. lies_in r a (a + m)) (map run_of_held runs.old.items)) }
    requires apart { IsTrue (list_all (λ c. (c.first == a) || blocks_apart c (block_at a m)) (live_in_runs runs.old.items)) }
    ensures in_order { AreRunsInOrder runs.new.items }
    ensures runs { map run_of_held runs.new.items ≡ map run_of_held runs.old.items }
    ensures ok { OnOk result (live_in_runs runs.new.items ≡ with_block (block_at a m) (without_block (block_at a n) (live_in_runs runs.old.items))) }
    ensures err { OnErr result (live_in_runs runs.new.items ≡ live_in_runs runs.old.items) }
{
    let i = index_with(runs, a / PAGE).unwrap();
    runs[i].resize(a, n, m)
}

/// A run without live blocks comes among the others, from which it is apart.
pub fn insert_run(
    runs: &mut Vec<Held>,
    alloc: Global,
    first: u64,
    pages: u64,
) -> Result<(), AllocError>
    requires in_order { AreRunsInOrder runs.old.items }
    requires some { 1 ≤ pages }
    requires fits { first + pages ≤ page_limit }
    requires apart { IsTrue (list_all (λ r. runs_apart r (run_at first pages)) (map run_of_held runs.old.items)) }
    ensures in_order { AreRunsInOrder runs.new.items }
    ensures blocks { live_in_runs runs.new.items ≡ live_in_runs runs.old.items }
    ensures ok { OnOk result (map run_of_held runs.new.items ≡ with_run (run_at first pages) (map run_of_held runs.old.items)) }
    ensures err { OnErr result (map run_of_held runs.new.items ≡ map run_of_held runs.old.items) }
{
    let i = count_to(runs, first);
    runs.insert(i, Held::empty(alloc, first, pages))?;
    Ok(())
}

/// The run at page `first` leaves the others, with its live blocks.
pub fn take_run(runs: &mut Vec<Held>, first: u64) -> Held
    requires in_order { AreRunsInOrder runs.old.items }
    requires there { IsTrue (list_any (λ r. r.first == first) (map run_of_held runs.old.items)) }
    ensures in_order { AreRunsInOrder runs.new.items }
    ensures run { run_of_held result ≡ region_at (map run_of_held runs.old.items) first }
    ensures blocks { live_of_held result ≡ blocks_in (live_in_runs runs.old.items) (run_of_held result) }
    ensures runs { map run_of_held runs.new.items ≡ without_run (run_of_held result) (map run_of_held runs.old.items) }
    ensures live { live_in_runs runs.new.items ≡ filter (λ b. blocks_apart b (bytes_of (run_of_held result))) (live_in_runs runs.old.items) }
    ensures used { sum_by (λ h. h.used) runs.new.items + result.used ≡ sum_by (λ h. h.used) runs.old.items }
{
    let i = index_with(runs, first).unwrap();
    runs.remove(i)
}

/// The live blocks of a run come into it, where it stands without any.
pub fn fill_run(runs: &mut Vec<Held>, held: Held)
    requires in_order { AreRunsInOrder runs.old.items }
    requires there { IsTrue (some_run (map run_of_held runs.old.items) (run_of_held held)) }
    requires unused { IsTrue (list_all (λ b. blocks_apart b (bytes_of (run_of_held held))) (live_in_runs runs.old.items)) }
    ensures in_order { AreRunsInOrder runs.new.items }
    ensures runs { map run_of_held runs.new.items ≡ map run_of_held runs.old.items }
    ensures live { live_in_runs runs.new.items ≡ fold (λ bs b. with_block b bs) (live_in_runs runs.old.items) (live_of_held held) }
    ensures used { sum_by (λ h. h.used) runs.new.items ≡ sum_by (λ h. h.used) runs.old.items + held.used }
{
    let i = index_with(runs, held.first()).unwrap();
    runs[i] = held;
}

/// The same runs again, with the same blocks.
pub fn copy_runs(alloc: Global, runs: &[Held]) -> Result<Vec<Held>, AllocError>
    ensures runs { IfOk result (λ v. map run_of_held v.items ≡ map run_of_held runs.now) }
    ensures live { IfOk result (λ v. live_in_runs v.items ≡ live_in_runs runs.now) }
    ensures used { IfOk result (λ v. sum_by (λ h. h.used) v.items ≡ sum_by (λ h. h.used) runs.now) }
{
    let mut list = Vec::new(alloc);
    for held in runs {
        list.push(held.copy()?)?;
    }
    Ok(list)
}

/// A request for `n` bytes found no room in them.
pub fn learn(runs: &mut Vec<Held>, n: u64)
    requires { 1 ≤ n }
    ensures runs { map run_of_held runs.new.items ≡ map run_of_held runs.old.items }
    ensures live { live_in_runs runs.new.items ≡ live_in_runs runs.old.items }
    ensures used { sum_by (λ h. h.used) runs.new.items ≡ sum_by (λ h. h.used) runs.old.items }
{
    let mut i = 0;
    while i < runs.len() {
        runs[i].learn(n);
        i += 1;
    }
}
