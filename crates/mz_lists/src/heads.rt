//! The first member of each list.
ghost use Rattle.std.specs.Prelude.{◌≡◌, ℕ, ◌+◌, ◌^◌, ◌<◌, ◌≤◌, IfOk, IsSome, MatchOption, Some};
ghost use Rattle.std.specs.Option.{ForSome};
ghost use Rattle.mz_lists.specs.Heads.{head_of, list_count, HasNoHead, IsLowestHead, IsWithHead};

use crate::links::{Bitmap, Links};
use crate::words::{first_set, is_set, with_bit, without_bit};
use mz_steps::Steps;
use std::alloc::{AllocError, Global};
use std::marker::Model;
use std::sync::ledger::Ledger;

/// The first member of each list, by the number of the list.
#[derive(Drop)]
pub(crate) struct Heads {
    // For each list that has a member, the place of the first.
    places: Links,
    // For each list whether it has a member.
    filled: Bitmap,
}

impl Model for Heads {
    ghost use Rattle.mz_lists.specs.Heads.{HeadsView, heads_code, AreHeads};

    ghost Value = { HeadsView };

    ghost coded = { heads_code };

    ghost view = { λ h. record { places = h.places; filled = h.filled } };

    ghost invariant = { λ h. AreHeads (record { places = h.places; filled = h.filled }) };
}

impl Heads {
    /// So many lists, none with a member. A place can be any below `limit`.
    pub(crate) fn make(alloc: Global, lists: u64, limit: u64) -> Result<Heads, AllocError>
        requires few { lists ≤ 64 }
        requires small { limit ≤ 2 ^ 32 }
        ensures none { IfOk result (λ h. HasNoHead h 0) }
        ensures count { IfOk result (λ h. list_count h ≡ lists) }
        ensures limit { IfOk result (λ h. limit ≤ h.places.limit) }
    {
        let places = Links::make(alloc, lists, limit)?;
        Ok(Heads {
            places,
            filled: Bitmap::new(),
        })
    }

    /// Puts a member first in a list, and answers the one that was.
    pub(crate) fn put_first<L: Ledger>(
        &mut self,
        list: u64,
        place: u64,
        steps: &mut Steps<L>,
    ) -> Option<u64>
        requires within { list < list_count self.old }
        requires fits { place < self.old.places.limit }
        ensures was { result ≡ head_of self.old list }
        ensures put { IsWithHead self.old list (Some place) self.new }
        ensures cost { steps.new ≤ steps.old + 2 }
    {
        let filled = self.filled.read(steps);
        if is_set(filled, list) {
            let was = self.places.get(list, steps);
            self.places.set(list, place);
            Some(was)
        } else {
            self.places.set(list, place);
            self.filled.write(with_bit(filled, list));
            None
        }
    }

    /// Takes the first member out of a list, in which `next` is then the first.
    pub(crate) fn drop_first<L: Ledger>(
        &mut self,
        list: u64,
        next: Option<u64>,
        steps: &mut Steps<L>,
    )
        requires within { list < list_count self.old }
        requires filled { IsSome (head_of self.old list) }
        requires fits { ForSome next (λ place. place < self.old.places.limit) }
        ensures dropped { IsWithHead self.old list next self.new }
        ensures cost { steps.new ≤ steps.old + 1 }
    {
        match next {
            Some(place) => self.places.set(list, place),
            None => {
                let filled = self.filled.read(steps);
                self.filled.write(without_bit(filled, list));
            }
        }
    }

    /// The first member of the lowest list from `list` on that has one.
    pub(crate) fn first_from<L: Ledger>(&self, list: u64, steps: &mut Steps<L>) -> Option<u64>
        requires { list < list_count self.now }
        ensures found { MatchOption result (HasNoHead self.now list) (IsLowestHead self.now list) }
        ensures cost { steps.new ≤ steps.old + 2 }
    {
        let lowest = first_set(self.filled.read(steps), list)?;
        Some(self.places.get(lowest, steps))
    }
}
