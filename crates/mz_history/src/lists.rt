//! The lists of a state.
ghost use Rattle.std.specs.Prelude.{◌≡◌, ◌++◌, map, IfOk, OnOk};
ghost use Rattle.std.specs.List.{flat_map};
ghost use Rattle.std.specs.List.Sorted.{IsPermutation, IsSortedByKey};
ghost use Rattle.std.specs.Ordering.{nat_cmp};
ghost use Rattle.mz_history.specs.Listed.{IsListOfRuns, IsListOfBlocks, run_listed, block_listed, run_at_place, block_at_place, runs_of_slot, blocks_of_slot, cached_pages};
ghost use Rattle.mz_history.specs.CachedLists.{AreCached};

use crate::books::Books;
use crate::listing::{LiveAt, RunAt};
use mz_events::Place;
use mz_holding::Extent;
use mz_spots::Slot;
use std::alloc::{AllocError, Global};

// Appends the runs, each with the place.
fn push_runs(list: &mut Vec<RunAt>, k: Place, runs: &[Extent]) -> Result<(), AllocError>
    ensures { OnOk result (list.new.items ≡ list.old.items ++ map (run_at_place k) runs.now) }
{
    for i in 0..runs.len() {
        let run = runs[i];
        list.push(RunAt {
            k,
            first: run.first,
            pages: run.len,
        })?;
    }
    Ok(())
}

// Appends the live blocks, each with the place.
fn push_live(list: &mut Vec<LiveAt>, k: Place, blocks: &[Extent]) -> Result<(), AllocError>
    ensures { OnOk result (list.new.items ≡ list.old.items ++ map (block_at_place k) blocks.now) }
{
    for i in 0..blocks.len() {
        let block = blocks[i];
        list.push(LiveAt {
            k,
            a: block.first,
            s: block.len,
        })?;
    }
    Ok(())
}

// Appends the runs of a spot.
fn push_runs_of(list: &mut Vec<RunAt>, alloc: Global, slot: &Slot) -> Result<(), AllocError>
    ensures { OnOk result (list.new.items ≡ list.old.items ++ map run_listed (runs_of_slot slot.now)) }
{
    let runs = slot.list_runs(alloc)?;
    push_runs(list, slot.place(), &runs)?;
    Ok(())
}

// Appends the live blocks of a spot.
fn push_live_of(list: &mut Vec<LiveAt>, alloc: Global, slot: &Slot) -> Result<(), AllocError>
    ensures { OnOk result (list.new.items ≡ list.old.items ++ map block_listed (blocks_of_slot slot.now)) }
{
    let blocks = slot.list_blocks(alloc)?;
    push_live(list, slot.place(), &blocks)?;
    Ok(())
}

// The first pages of runs.
fn firsts_of(alloc: Global, runs: &[Extent]) -> Result<Vec<u64>, AllocError>
    ensures { IfOk result (λ v. v.items ≡ map (λ e. e.first) runs.now) }
{
    let mut list = Vec::new(alloc);
    for i in 0..runs.len() {
        let run = runs[i];
        list.push(run.first)?;
    }
    Ok(list)
}

// Sorts the runs by first page, and the live blocks by address.
fn sort_runs(list: &mut Vec<RunAt>) -> Result<(), AllocError>
    ensures each { IsPermutation list.old.items list.new.items }
    ensures ascending { OnOk result (IsSortedByKey (λ r. r.first) nat_cmp list.new.items) }
{
    list.sort_by_key(|run| run.first)?;
    Ok(())
}

fn sort_live(list: &mut Vec<LiveAt>) -> Result<(), AllocError>
    ensures each { IsPermutation list.old.items list.new.items }
    ensures ascending { OnOk result (IsSortedByKey (λ b. b.a) nat_cmp list.new.items) }
{
    list.sort_by_key(|block| block.a)?;
    Ok(())
}

// The runs of all these slots.
fn runs_of(alloc: Global, slots: &[Slot]) -> Result<Vec<RunAt>, AllocError>
    ensures { IfOk result (λ v. v.items ≡ map run_listed (flat_map runs_of_slot slots.now)) }
{
    let mut list = Vec::new(alloc);
    for slot in slots {
        push_runs_of(&mut list, alloc, slot)?;
    }
    Ok(list)
}

// The live blocks of all these slots.
fn live_of(alloc: Global, slots: &[Slot]) -> Result<Vec<LiveAt>, AllocError>
    ensures { IfOk result (λ v. v.items ≡ map block_listed (flat_map blocks_of_slot slots.now)) }
{
    let mut list = Vec::new(alloc);
    for slot in slots {
        push_live_of(&mut list, alloc, slot)?;
    }
    Ok(list)
}

impl Books {
    /// The runs of all places but the free pages, ascending.
    pub(crate) fn list_runs(&self) -> Result<Vec<RunAt>, AllocError>
        ensures { IfOk result (λ v. IsListOfRuns self.now.profile self.now.state v.items) }
    {
        let mut list = runs_of(self.alloc, self.slots.list())?;
        if 0 < self.profile.nano {
            list.push(RunAt {
                k: Place::Nano,
                first: self.nano_start(),
                pages: self.profile.nano,
            })?;
        }
        sort_runs(&mut list)?;
        Ok(list)
    }

    /// All live blocks, ascending.
    pub(crate) fn list_live(&self) -> Result<Vec<LiveAt>, AllocError>
        ensures { IfOk result (λ v. IsListOfBlocks self.now.state v.items) }
    {
        let mut list = live_of(self.alloc, self.slots.list())?;
        sort_live(&mut list)?;
        Ok(list)
    }

    /// For each zone the first pages of the cached runs of its large, in order of freeing.
    pub(crate) fn list_cached(&self) -> Result<Vec<Vec<u64>>, AllocError>
        ensures { IfOk result (λ v. AreCached self.now (map (λ pages. pages.items) v.items)) }
    {
        let mut list = Vec::new(self.alloc);
        for zone in 0..self.profile.zones {
            list.push(self.cached_of(zone)?)?;
        }
        Ok(list)
    }

    // The first pages of the cached runs of large of a zone.
    fn cached_of(&self, zone: u32) -> Result<Vec<u64>, AllocError>
        ensures { IfOk result (λ v. v.items ≡ cached_pages self.now.state zone) }
    {
        let runs = self.holding(Place::Large { zone }).list_cached()?;
        let list = firsts_of(self.alloc, &runs)?;
        Ok(list)
    }
}
