//! The names that a caller holds, each with its block.

ghost use Rattle.std.specs.Prelude.{◌≡◌, ◌+◌, ◌≤◌, length, replicate, [], None, Some, IfSome, IfOk, OnOk};
ghost use Rattle.std.specs.Option.{option_map};
ghost use Rattle.mz_zone.specs.Blocks.{with_block_bytes};
ghost use Rattle.mz_session.specs.Names.{block_with, blocks_named, name_from, BeginsAt, IsFirstInBatch};
ghost use Rattle.mz_session.specs.Changes.{AreWith, written};

use crate::block::Block as Listed;
use mz_words::{BaseName, BatchIndex, BatchName, Name};
use mz_zone::Block;
use std::alloc::{AllocError, Global};
use std::collections::BTreeMap;
use std::marker::Model;

/// The names that a caller holds, each with its block. Contracts see them as pairs, in the order of the names.
#[derive(Drop)]
pub(crate) struct Blocks {
    map: BTreeMap<Name, Block>,
    // The names by the first addresses of their blocks.
    starts: BTreeMap<u64, Name>,
}

impl Model for Blocks {
    ghost use Rattle.mz_session.specs.Names.{NamedBlocks, AreStarts};

    ghost Value = { NamedBlocks };

    ghost view = { λ s. s.map.entries };

    ghost invariant = { λ s. AreStarts s.map.entries s.starts };
}

impl Blocks {
    /// No names.
    pub(crate) fn new(alloc: Global) -> Blocks
        ensures { result ≡ [] }
    {
        Blocks {
            map: BTreeMap::new(alloc),
            starts: BTreeMap::new(alloc),
        }
    }

    /// The block that has the name.
    pub(crate) fn get(&self, name: &Name) -> Option<&Block>
        ensures { option_map (λ b. b.now) result ≡ block_with self.now name.now }
    {
        self.map.get(name)
    }

    /// The name whose block begins at the address.
    pub(crate) fn name_from(&self, address: u64) -> Option<Name>
        ensures name { result ≡ name_from self.now address }
        ensures begins { IfSome result (BeginsAt self.now address) }
    {
        self.starts.get(&address).copied()
    }

    /// The least number of a block of the batch.
    pub(crate) fn first_in_batch(&self, base: &BaseName) -> Option<BatchIndex>
        ensures { IsFirstInBatch self.now base.now result }
    {
        let index = BatchIndex::new(0)?;
        let least = Name::Batch(BatchName { base: *base, index });
        let (name, _block) = self.map.range(least..).next()?;
        match name {
            Name::Batch(batch) => (batch.base == *base).then_some(batch.index),
            Name::Base(_name) => None,
            Name::Given(_name) => None,
        }
    }

    /// The blocks of all names, in the order of these.
    pub(crate) fn listed(&self, alloc: Global) -> Result<Vec<Listed>, AllocError>
        ensures { IfOk result (λ v. v.items ≡ blocks_named self.now) }
    {
        let mut listed = Vec::new(alloc);
        for block in self.map.values() {
            listed.push(Listed::new(block.first(), block.size()))?;
        }
        Ok(listed)
    }

    /// The name has no block from now on.
    pub(crate) fn remove(&mut self, name: &Name) -> Option<Block>
        ensures block { result ≡ block_with self.old name.now }
        ensures others { AreWith self.old name.now None self.new }
    {
        let block = self.map.remove(name)?;
        self.starts.remove(&block.first());
        Some(block)
    }

    /// Gives the name, which has none, to the block, which begins where no other does. Where there is no memory for the
    /// name the block is lost.
    pub(crate) fn insert(&mut self, name: Name, block: Block) -> Result<(), AllocError>
        requires free { block_with self.old name ≡ None }
        requires start { name_from self.old block.span.first ≡ None }
        ensures { OnOk result (AreWith self.old name (Some block) self.new) }
    {
        let start = block.first();
        self.map.insert(name, block)?;
        if self.starts.insert(start, name).is_err() {
            self.map.remove(&name);
            return Err(AllocError);
        }
        Ok(())
    }

    /// Writes the byte over all bytes of the block that has the name, if there is one.
    pub(crate) fn fill(&mut self, name: &Name, byte: u8)
        ensures { AreWith self.old name.now (option_map (λ b. with_block_bytes b (replicate (length b.span.bytes) byte)) (block_with self.old name.now)) self.new }
    {
        let Some(block) = self.map.get_mut(name) else {
            return;
        };
        fill(block, byte);
    }

    /// Writes the bytes into the block that has the name, from `off` on, if there is one. It has room for them.
    pub(crate) fn write(&mut self, name: &Name, off: u64, bytes: &[u8])
        requires { IfSome (block_with self.old name.now) (λ b. off + length bytes.now ≤ length b.span.bytes) }
        ensures { AreWith self.old name.now (option_map (λ b. with_block_bytes b (written off bytes.now b.span.bytes)) (block_with self.old name.now)) self.new }
    {
        let Some(block) = self.map.get_mut(name) else {
            return;
        };
        write(block, off, bytes);
    }
}

// Writes the byte over all bytes of the block.
fn fill(block: &mut Block, byte: u8)
    ensures { block.new ≡ with_block_bytes block.old (replicate (length block.old.span.bytes) byte) }
{
    block.bytes_mut().fill(byte);
}

// Writes the bytes into the block, from `off` on.
fn write(block: &mut Block, off: u64, bytes: &[u8])
    requires { off + length bytes.now ≤ length block.old.span.bytes }
    ensures { block.new ≡ with_block_bytes block.old (written off bytes.now block.old.span.bytes) }
{
    let _len = block.size();
    let off = off as usize;
    block.bytes_mut()[off..off + bytes.len()].copy_from_slice(bytes);
}
