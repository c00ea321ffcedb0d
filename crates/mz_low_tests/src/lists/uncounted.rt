//! A caller that counts nothing, and has const parameters of its own, as a region has.
ghost use Rattle.std.specs.Prelude.{◌≡◌, ◌+◌, ◌<◌, ◌≤◌, IfOk, IsNone};
ghost use Rattle.std.specs.FinMap as map;
ghost use Rattle.mz_lists.specs.Members.{no_members};

use mz_lists::{FreeLists, Steps};
use std::alloc::{AllocError, Global};
use std::marker::{Brand, Model};
use std::sync::ledger::{Blank, Ledger};

/// Lists for runs of `N` quanta of `Q` bytes, whose calls take no count.
#[derive(Drop)]
pub(crate) struct Uncounted<const Q: usize, const N: usize> {
    lists: FreeLists<64>,
}

impl<const Q: usize, const N: usize> Model for Uncounted<Q, N> {
    ghost use Rattle.mz_lists.specs.Members.{ListsView, lists_code};

    ghost Value = { ListsView };

    ghost coded = { lists_code };

    ghost view = { λ u. u.lists };
}

impl<const Q: usize, const N: usize> Uncounted<Q, N> {
    pub(crate) fn make(alloc: Global) -> Result<Uncounted<Q, N>, AllocError>
        ensures { IfOk result (λ u. u ≡ no_members N) }
    {
        let lists = FreeLists::make(alloc, N as u64)?;
        Ok(Uncounted { lists })
    }

    /// Makes the `n` quanta from place `q` on a member, and answers the first byte of the shortest of
    /// at least `n` quanta.
    pub(crate) fn put(&mut self, q: u64, n: u64) -> Option<u64>
        requires free { IsNone (map.get self.old.members q) }
        requires some { 1 ≤ n }
        requires most { n ≤ 64 }
        requires within { q + n ≤ self.old.quanta }
        ensures made { self.new ≡ record self.old { members = map.insert self.old.members q n } }
    {
        let (q, _) = put_uncounted::<Brand>(&mut self.lists, q, n, Blank::new(1))?;
        q.checked_mul(Q as u64)
    }
}

// The number of lists is no parameter here: the ledger is picked at a call of this, and no call that has a
// const parameter in its signature can pick one.
fn put_uncounted<L: Ledger>(
    lists: &mut FreeLists<64>,
    q: u64,
    n: u64,
    blank: Blank,
) -> Option<(u64, u64)>
    requires name { blank.name ≡ L.name }
    requires parts { blank.parts ≡ L.parts }
    requires one { 0 < blank.parts }
    requires free { IsNone (map.get lists.old.members q) }
    requires some { 1 ≤ n }
    requires most { n ≤ 64 }
    requires within { q + n ≤ lists.old.quanta }
    ensures made { lists.new ≡ record lists.old { members = map.insert lists.old.members q n } }
{
    let mut steps = Steps::<L>::open(blank);
    lists.put(q, n, &mut steps);
    lists.first_at_least(n, &mut steps)
}
