//! Free lists, and a plain list beside them.
ghost use Rattle.std.specs.Prelude.{◌≡◌, ℕ, ◌+◌, ◌<◌, ◌≤◌};
ghost use Rattle.mz_low_tests.specs.Plain.{IsAlike};

use mz_lists::{FreeLists, Steps};
use std::alloc::{AllocError, Global};
use std::sync::ledger::Ledger;

/// Free lists, and the length of the member at each place, 0 where there is none.
#[derive(Drop)]
pub(crate) struct Bench<const N: usize> {
    lists: FreeLists<N>,
    plain: Vec<u64>,
    ghost alike: { IsAlike lists plain.items },
}

impl<const N: usize> Bench<N> {
    pub(crate) fn new(alloc: Global, quanta: u64) -> Result<Bench<N>, AllocError>
        requires some { 1 ≤ N }
        requires most { N ≤ 64 }
    {
        let lists = FreeLists::make(alloc, quanta)?;
        let plain = Vec::from_elem(alloc, 0, quanta as usize)?;
        Ok(Bench { lists, plain })
    }

    /// Puts a member where there is none, of as many quanta as there are.
    pub(crate) fn put<L: Ledger>(&mut self, q: u64, n: u64, steps: &mut Steps<L>) {
        let quanta = self.plain.len() as u64;
        if q < quanta && n >= 1 && self.plain[q as usize] == 0 {
            let n = n.min(quanta - q);
            self.lists.put(q, n, steps);
            self.plain[q as usize] = n;
        }
    }

    /// Takes the member at a place, where there is one.
    pub(crate) fn take<L: Ledger>(&mut self, q: u64, steps: &mut Steps<L>) {
        let quanta = self.plain.len() as u64;
        if q < quanta && self.plain[q as usize] != 0 {
            self.lists.take(q, steps);
            self.plain[q as usize] = 0;
        }
    }

    /// Whether the lists answer a member of the plain list, of the least length that serves.
    pub(crate) fn agrees<L: Ledger>(&self, n: u64, steps: &mut Steps<L>) -> bool
        requires some { 1 ≤ n }
        requires most { n ≤ N }
    {
        let serving = self.plain.iter().filter(|l| **l >= n);
        let least = serving.map(|l| (*l).min(N as u64)).min();
        match self.lists.first_at_least(n, steps) {
            None => least.is_none(),
            Some((q, l)) => {
                self.plain.get(q as usize) == Some(&l) && least == Some(l.min(N as u64))
            }
        }
    }
}
