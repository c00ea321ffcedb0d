//! Truth values by number.
ghost use Rattle.std.specs.Prelude.{◌≡◌, ◌+◌, ◌<◌, ◌≤◌, ◌==◌, length, slice_get, slice_set, replicate, true, false, IfOk, MatchOption, Some};
ghost use Rattle.mz_bits.specs.Runs.{HasNoNext, IsNext, IsRunOf, with_run};

use crate::words::{next_in, write_in};
use std::alloc::{AllocError, Global};
use std::marker::Model;

/// Bits by number, from 0 on. Contracts see the list of their truth values.
#[derive(Drop)]
pub struct Bits {
    words: Vec<u64>,
    len: u64,
}

impl Model for Bits {
    ghost use Rattle.std.specs.Prelude.{List, Bool};
    ghost use Rattle.mz_bits.specs.Words.{bits_of, HaveRoom};

    ghost Value = { List Bool };

    ghost view = { λ b. bits_of b.words.items b.len };

    ghost invariant = { λ b. HaveRoom b.words.items b.len };
}

impl Bits {
    /// So many bits, all clear. Where their numbers would come too near to the end of `u64`, that
    /// is want of memory.
    pub fn make(alloc: Global, n: u64) -> Result<Bits, AllocError>
        ensures { IfOk result (λ b. b ≡ replicate n false) }
    {
        let Some(padded) = n.checked_next_multiple_of(64) else {
            return Err(AllocError);
        };
        let words = Vec::from_elem(alloc, 0, (padded / 64) as usize)?;
        Ok(Bits { words, len: n })
    }

    /// How many bits there are.
    pub fn len(&self) -> u64
        ensures { result ≡ length self.now }
    {
        self.len
    }

    /// Whether there are none.
    pub fn is_empty(&self) -> bool
        ensures { result ≡ (length self.now == 0) }
    {
        self.len == 0
    }

    /// Whether bit `i` is set.
    pub fn get(&self, i: u64) -> bool
        requires { i < length self.now }
        ensures { slice_get self.now i ≡ Some result }
    {
        self.words[(i / 64) as usize] >> (i % 64) & 1 == 1
    }

    /// Sets bit `i`.
    pub fn set(&mut self, i: u64)
        requires { i < length self.old }
        ensures made { self.new ≡ slice_set self.old i true }
        ensures count { length self.new ≡ length self.old }
    {
        self.write(true, i, 1);
    }

    /// Clears bit `i`.
    pub fn clear(&mut self, i: u64)
        requires { i < length self.old }
        ensures made { self.new ≡ slice_set self.old i false }
        ensures count { length self.new ≡ length self.old }
    {
        self.write(false, i, 1);
    }

    /// Sets the `n` bits from the `i`-th on.
    pub fn set_run(&mut self, i: u64, n: u64)
        requires { i + n ≤ length self.old }
        ensures made { self.new ≡ with_run self.old i n true }
        ensures count { length self.new ≡ length self.old }
    {
        self.write(true, i, n);
    }

    /// Clears the `n` bits from the `i`-th on.
    pub fn clear_run(&mut self, i: u64, n: u64)
        requires { i + n ≤ length self.old }
        ensures made { self.new ≡ with_run self.old i n false }
        ensures count { length self.new ≡ length self.old }
    {
        self.write(false, i, n);
    }

    /// The least place at or after `i` whose bit is set.
    pub fn next_set(&self, i: u64) -> Option<u64>
        ensures { MatchOption result (HasNoNext true self.now i) (IsNext true self.now i) }
    {
        next_in(self.words.as_slice(), true, i, self.len)
    }

    /// The least place at or after `i` whose bit is clear.
    pub fn next_clear(&self, i: u64) -> Option<u64>
        ensures { MatchOption result (HasNoNext false self.now i) (IsNext false self.now i) }
    {
        next_in(self.words.as_slice(), false, i, self.len)
    }

    /// How many bits are clear in a row from the `i`-th on, or `max` where these are more.
    pub fn run_at(&self, i: u64, max: u64) -> u64
        ensures { IsRunOf false self.now i max result }
    {
        let end = self.len.min(i.saturating_add(max));
        let next = next_in(self.words.as_slice(), true, i, end).unwrap_or(end);
        next.saturating_sub(i)
    }

    // Makes the `n` bits from the `i`-th on `value`.
    fn write(&mut self, value: bool, i: u64, n: u64)
        requires { i + n ≤ length self.old }
        ensures made { self.new ≡ with_run self.old i n value }
        ensures count { length self.new ≡ length self.old }
    {
        write_in(self.words.as_mut_slice(), value, i, n);
    }
}
