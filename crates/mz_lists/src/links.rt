//! The words of which each reading is a step.
ghost use Rattle.std.specs.Prelude.{◌≡◌, ℕ, ◌+◌, ◌^◌, ◌<◌, ◌≤◌, length, replicate, slice_index, slice_set, IfOk};

use crate::numbers::Numbers;
use mz_steps::Steps;
use std::alloc::{AllocError, Global};
use std::marker::Model;
use std::sync::ledger::Ledger;

/// Places by number.
#[derive(Drop)]
pub(crate) struct Links {
    places: Numbers,
}

impl Model for Links {
    ghost use Rattle.mz_lists.specs.Numbers.{NumbersView, numbers_code};

    ghost Value = { NumbersView };

    ghost coded = { numbers_code };

    ghost view = { λ l. l.places };
}

impl Links {
    /// So many links, all to place 0, which can be to any place below `limit`.
    pub(crate) fn make(alloc: Global, len: u64, limit: u64) -> Result<Links, AllocError>
        requires { limit ≤ 2 ^ 32 }
        ensures zeros { IfOk result (λ l. l.items ≡ replicate len 0) }
        ensures limit { IfOk result (λ l. limit ≤ l.limit) }
        ensures least { IfOk result (λ l. 2 ^ 16 ≤ l.limit) }
        ensures narrow { limit ≤ 2 ^ 16 → IfOk result (λ l. l.limit ≡ 2 ^ 16) }
    {
        let places = Numbers::make(alloc, len, limit)?;
        Ok(Links { places })
    }

    /// Where a link leads. Reading it is a step.
    pub(crate) fn get<L: Ledger>(&self, i: u64, steps: &mut Steps<L>) -> u64
        requires { i < length self.now.items }
        ensures place { result ≡ slice_index self.now.items i }
        ensures cost { steps.new ≡ steps.old + 1 }
    {
        steps.tick();
        self.places.get(i)
    }

    /// Makes a link lead to a place.
    pub(crate) fn set(&mut self, i: u64, place: u64)
        requires within { i < length self.old.items }
        requires fits { place < self.old.limit }
        ensures { self.new ≡ record self.old { items = slice_set self.old.items i place } }
    {
        self.places.set(i, place);
    }
}

/// A bitmap of one word.
#[derive(Drop)]
pub(crate) struct Bitmap {
    word: u64,
}

impl Model for Bitmap {
    ghost use Rattle.std.specs.Prelude.{ℕ};

    ghost Value = { ℕ };

    ghost view = { λ b. b.word };
}

impl Bitmap {
    /// All bits clear.
    pub(crate) fn new() -> Bitmap
        ensures { result ≡ 0 }
    {
        Bitmap { word: 0 }
    }

    /// The word. Reading it is a step.
    pub(crate) fn read<L: Ledger>(&self, steps: &mut Steps<L>) -> u64
        ensures word { result ≡ self.now }
        ensures cost { steps.new ≡ steps.old + 1 }
    {
        steps.tick();
        self.word
    }

    /// Makes it this word.
    pub(crate) fn write(&mut self, word: u64)
        ensures { self.new ≡ word }
    {
        self.word = word;
    }
}
