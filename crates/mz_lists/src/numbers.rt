//! Numbers by place.
ghost use Rattle.std.specs.Prelude.{◌≡◌, ℕ, ◌^◌, ◌<◌, ◌≤◌, length, replicate, slice_index, slice_set, IfOk};

use std::alloc::{AllocError, Global};
use std::marker::Model;

/// Numbers by place, in 16 bits each where these serve and in 32 otherwise. Contracts see them, and
/// the limit that each of them stays below.
#[derive(Drop)]
pub(crate) struct Numbers {
    words: Words,
}

#[derive(Drop)]
enum Words {
    Short(Vec<u16>),
    Long(Vec<u32>),
}

impl Model for Numbers {
    ghost use Rattle.mz_lists.specs.Numbers.{NumbersView, numbers_code};

    ghost Value = { NumbersView };

    ghost coded = { numbers_code };

    ghost use Rattle.mz_lists.specs.Widths.{items_of, limit_of};

    ghost view = { λ n. record { items = items_of n.words; limit = limit_of n.words } };
}

impl Numbers {
    /// So many numbers, all 0, which can be any below `limit`.
    pub(crate) fn make(alloc: Global, len: u64, limit: u64) -> Result<Numbers, AllocError>
        requires { limit ≤ 2 ^ 32 }
        ensures zeros { IfOk result (λ n. n.items ≡ replicate len 0) }
        ensures limit { IfOk result (λ n. limit ≤ n.limit) }
        ensures least { IfOk result (λ n. 2 ^ 16 ≤ n.limit) }
        ensures narrow { limit ≤ 2 ^ 16 → IfOk result (λ n. n.limit ≡ 2 ^ 16) }
    {
        let words = if limit <= 65_536 {
            Words::Short(Vec::from_elem(alloc, 0, len as usize)?)
        } else {
            Words::Long(Vec::from_elem(alloc, 0, len as usize)?)
        };
        Ok(Numbers { words })
    }

    /// The number at a place.
    pub(crate) fn get(&self, i: u64) -> u64
        requires { i < length self.now.items }
        ensures { result ≡ slice_index self.now.items i }
    {
        match &self.words {
            Words::Short(words) => u64::from(words[i as usize]),
            Words::Long(words) => u64::from(words[i as usize]),
        }
    }

    /// Puts a number at a place.
    pub(crate) fn set(&mut self, i: u64, number: u64)
        requires within { i < length self.old.items }
        requires fits { number < self.old.limit }
        ensures { self.new ≡ record self.old { items = slice_set self.old.items i number } }
    {
        match &mut self.words {
            Words::Short(words) => words[i as usize] = number as u16,
            Words::Long(words) => words[i as usize] = number as u32,
        }
    }
}
