//! Live blocks in an ordered map.
ghost use Rattle.std.specs.Prelude.{◌≡◌, ℕ, ◌≤◌, List, [], map};
ghost use Rattle.std.specs.Ordering.{nat_cmp};
ghost use Rattle.std.specs.BTreeMap.Range.{entries_between};
ghost use Rattle.std.specs.declared.ops.Bound.TheVariants.{Included, Excluded, Unbounded};
ghost use Rattle.mz_holding.specs.Gaps.{AreSpread, spread_once, far, blocks_of_pairs, IsFirstOf, IsLastOf, end_or_none, first_or_far};

use crate::extent::Extent;
use std::alloc::{AllocError, Global};
use std::collections::BTreeMap;

/// Live blocks by address, apart, each of a byte at least.
#[derive(Drop)]
pub struct Blocks {
    sizes: BTreeMap<u64, u64>,
    ghost spread: { AreSpread (blocks_of_pairs sizes.entries) } by { spread_once _ },
}

// The last pair with an address below `a`.
fn last_below(sizes: &BTreeMap<u64, u64>, a: u64) -> Option<(u64, u64)>
    ensures { IsLastOf (entries_between nat_cmp Unbounded (Excluded a) sizes.now.entries) result }
{
    match sizes.range(..a).next_back() {
        Some((&first, &size)) => Some((first, size)),
        None => None,
    }
}

// The first pair with an address of `a` or more.
fn first_from(sizes: &BTreeMap<u64, u64>, a: u64) -> Option<(u64, u64)>
    ensures { IsFirstOf (entries_between nat_cmp (Included a) Unbounded sizes.now.entries) result }
{
    match sizes.range(a..).next() {
        Some((&first, &size)) => Some((first, size)),
        None => None,
    }
}

// Where the pair ends, and 0 where there is none.
fn end_of(pair: Option<(u64, u64)>) -> u64
    requires { end_or_none pair ≤ far }
    ensures { result ≡ end_or_none pair }
{
    match pair {
        Some((first, size)) => first + size,
        None => 0,
    }
}

// Where the pair begins, and above all addresses where there is none.
fn start_of(pair: Option<(u64, u64)>) -> u64
    ensures { result ≡ first_or_far pair }
{
    match pair {
        Some((first, _)) => first,
        None => u64::MAX,
    }
}

impl Blocks {
    ghost use Rattle.std.specs.Prelude.{◌+◌, ◌||◌, ◌==◌, ◌++◌, length, OnOk, OnErr, IfOk, IsTrue};
    ghost use Rattle.std.specs.List.{list_all};
    ghost use Rattle.mz_base.specs.Space.{block_at, blocks_apart};
    ghost use Rattle.mz_base.specs.Lists.{has_block, add_block, drop_block};
    ghost use Rattle.mz_holding.specs.Gaps.{IsGap, size_found};
    ghost use Rattle.mz_holding.specs.LiveBlocks.{live_of};
    ghost use Rattle.mz_holding.specs.HeldRuns.{block_of};

    /// No blocks.
    pub fn new(alloc: Global) -> Blocks
        ensures { live_of result ≡ [] }
    {
        Blocks {
            sizes: BTreeMap::new(alloc),
        }
    }

    /// The same blocks again.
    pub fn copy(&self) -> Result<Blocks, AllocError>
        ensures { IfOk result (λ b. live_of b ≡ live_of self.now) }
    {
        Ok(Blocks {
            sizes: self.sizes.clone()?,
        })
    }

    /// Whether there are none.
    pub fn is_empty(&self) -> bool
        ensures { result ≡ (length (live_of self.now) == 0) }
    {
        self.sizes.len() == 0
    }

    /// How many there are.
    pub fn len(&self) -> usize
        ensures { result ≡ length (live_of self.now) }
    {
        self.sizes.len()
    }

    /// The size of the block that begins at `a`.
    pub fn find(&self, a: u64) -> Option<u64>
        ensures { result ≡ size_found (live_of self.now) a }
    {
        self.sizes.get(&a).copied()
    }

    /// The end of the last block that begins below `a`, and the start of the first at or above it.
    pub fn gap(&self, a: u64) -> (u64, u64)
        ensures { IsGap 0 far (live_of self.now) a result.0 result.1 }
    {
        let below = last_below(&self.sizes, a);
        let above = first_from(&self.sizes, a);
        (end_of(below), start_of(above))
    }

    /// Adds a block that is apart from the others.
    pub fn insert(&mut self, a: u64, n: u64) -> Result<(), AllocError>
        requires some { 1 ≤ n }
        requires fits { a + n ≤ far }
        requires apart { IsTrue (list_all (λ c. blocks_apart c (block_at a n)) (live_of self.old)) }
        ensures ok { OnOk result (live_of self.new ≡ add_block (block_at a n) (live_of self.old)) }
        ensures err { OnErr result (live_of self.new ≡ live_of self.old) }
    {
        self.sizes.insert(a, n)?;
        Ok(())
    }

    /// Gives the block of `n` bytes at `a` another size, at which it is apart from the others still.
    pub fn resize(&mut self, a: u64, _n: u64, m: u64) -> Result<(), AllocError>
        requires there { IsTrue (has_block (live_of self.old) (block_at a _n)) }
        requires some { 1 ≤ m }
        requires fits { a + m ≤ far }
        requires apart { IsTrue (list_all (λ c. (c.first == a) || blocks_apart c (block_at a m)) (live_of self.old)) }
        ensures ok { OnOk result (live_of self.new ≡ add_block (block_at a m) (drop_block (block_at a _n) (live_of self.old))) }
        ensures err { OnErr result (live_of self.new ≡ live_of self.old) }
    {
        self.sizes.insert(a, m)?;
        Ok(())
    }

    /// Takes out the block of `n` bytes at `a`.
    pub fn remove(&mut self, a: u64, _n: u64)
        requires { IsTrue (has_block (live_of self.old) (block_at a _n)) }
        ensures { live_of self.new ≡ drop_block (block_at a _n) (live_of self.old) }
    {
        self.sizes.remove(&a);
    }

    /// Appends the blocks in order of their addresses. Where memory is wanted, some of them are there.
    pub fn push_to(&self, list: &mut Vec<Extent>) -> Result<(), AllocError>
        ensures { OnOk result (map block_of list.new.items ≡ map block_of list.old.items ++ live_of self.now) }
    {
        for (&first, &len) in &self.sizes {
            list.push(Extent { first, len })?;
        }
        Ok(())
    }
}
