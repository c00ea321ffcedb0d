//! Runs of quanta in lists by length.
ghost use Rattle.std.specs.Prelude.{◌≡◌, ◌+◌, ◌^◌, ◌<◌, ◌≤◌, ◌==◌, length, IsSome, IsNone, IfOk, MatchOption, Some, None, if◌then◌else◌};
ghost use Rattle.std.specs.FinMap as map;
ghost use Rattle.mz_lists.specs.Slots.{list_of, other_than, LeadAway};
ghost use Rattle.mz_lists.specs.Members.{no_members, HasNoFit, IsLeastFit, AreWithin};

use crate::heads::Heads;
use crate::links::Links;
use crate::numbers::Numbers;
use mz_steps::Steps;
use std::alloc::{AllocError, Global};
use std::marker::Model;
use std::sync::ledger::Ledger;

/// Members by place, each some quanta in a row, in lists by their length: one list for each length
/// from 1 to `N - 1`, and one for `N` and more. Contracts see how many quanta there are, and the map
/// from the place of each member to its length.
///
/// A step is one word read of a link or of the bitmap. A length is no link.
#[derive(Drop)]
pub struct FreeLists<const N: usize> {
    // For each member, by its place, the place of the next in its list, or its own where it is the last.
    next: Links,
    // The same for the one before it. A place without a member has another place than its own in
    // both, and one and the same, as no member has.
    prev: Links,
    // For each member, by its place, its quanta less one, so that all quanta fit.
    lengths: Numbers,
    // For each list the first member.
    heads: Heads,
}

impl<const N: usize> Model for FreeLists<N> {
    ghost use Rattle.mz_lists.specs.Members.{ListsView, lists_code};

    ghost Value = { ListsView };

    ghost coded = { lists_code };

    ghost use Rattle.std.specs.Prelude.{length};
    ghost use Rattle.mz_lists.specs.Slots.{members_of};
    ghost use Rattle.mz_lists.specs.Kept.{AreKept};

    ghost view = { λ f. record { quanta = length f.next.items; members = members_of f.next.items f.prev.items f.lengths.items } };

    ghost invariant = { λ f. AreKept N f.next f.prev f.lengths f.heads };
}

impl<const N: usize> FreeLists<N> {
    /// Lists of so many quanta, without a member. This is the only call that takes memory. More
    /// than 2^32 quanta are want of memory.
    pub fn make(alloc: Global, quanta: u64) -> Result<FreeLists<N>, AllocError>
        requires some { 1 ≤ N }
        requires most { N ≤ 64 }
        ensures { IfOk result (λ f. f ≡ no_members quanta) }
    {
        if quanta > 1 << 32 {
            return Err(AllocError);
        }
        let next = unlinked(alloc, quanta)?;
        let prev = unlinked(alloc, quanta)?;
        let lengths = Numbers::make(alloc, quanta, quanta)?;
        let heads = Heads::make(alloc, N as u64, quanta)?;
        Ok(FreeLists {
            next,
            prev,
            lengths,
            heads,
        })
    }

    /// Makes the `n` quanta from place `q` on a member, in the list of its length.
    pub fn put<L: Ledger>(&mut self, q: u64, n: u64, steps: &mut Steps<L>)
        requires free { IsNone (map.get self.old.members q) }
        requires some { 1 ≤ n }
        requires within { q + n ≤ self.old.quanta }
        ensures made { self.new ≡ record self.old { members = map.insert self.old.members q n } }
        ensures cost { steps.new ≤ steps.old + 2 }
    {
        self.lengths.set(q, n - 1);
        let list = list_of::<N>(n);
        let next = self.heads.put_first(list, q, steps).unwrap_or(q);
        self.next.set(q, next);
        self.prev.set(next, q);
        self.prev.set(q, q);
    }

    /// Takes the member at place `q` out of its list.
    pub fn take<L: Ledger>(&mut self, q: u64, steps: &mut Steps<L>)
        requires { IsSome (map.get self.old.members q) }
        ensures taken { self.new ≡ record self.old { members = map.remove self.old.members q } }
        ensures cost { steps.new ≤ steps.old + 3 }
    {
        let next = self.next.get(q, steps);
        let prev = self.prev.get(q, steps);
        // Where it is the first or the last, one of these writes its own link, which is written again.
        self.next.set(prev, other_or(q, next, prev));
        self.prev.set(next, other_or(q, prev, next));
        self.next.set(q, other_than(q));
        self.prev.set(q, other_than(q));
        if prev == q {
            let list = list_of::<N>(self.lengths.get(q) + 1);
            self.heads.drop_first(list, place_behind(q, next), steps);
        }
    }

    /// A member of at least `n` quanta, as its place and its length: one of the least such length,
    /// where all lengths of `N` and more count as `N`. None where no member has so many.
    pub fn first_at_least<L: Ledger>(&self, n: u64, steps: &mut Steps<L>) -> Option<(u64, u64)>
        requires some { 1 ≤ n }
        requires most { n ≤ N }
        ensures found { MatchOption result (HasNoFit self.now.members n)
            (λ m. IsLeastFit N self.now.members n m.0 m.1) }
        ensures within { AreWithin self.now }
        ensures cost { steps.new ≤ steps.old + 2 }
    {
        let q = self.heads.first_from(n - 1, steps)?;
        Some((q, self.lengths.get(q) + 1))
    }
}

// The list of the members of `n` quanta.
fn list_of<const N: usize>(n: u64) -> u64
    requires some { 1 ≤ n }
    requires lists { 1 ≤ N }
    ensures list { result ≡ list_of N n }
    ensures within { result < N }
{
    n.min(N as u64) - 1
}

// The place that the link `next` of the member at `q` leads to, if it isn't the last.
fn place_behind(q: u64, next: u64) -> Option<u64>
    ensures { result ≡ (if next == q then None else Some next) }
{
    if next == q { None } else { Some(next) }
}

// The place that a link of the member at `q` leads to, or another where it leads nowhere.
fn other_or(q: u64, place: u64, other: u64) -> u64
    ensures { result ≡ (if place == q then other else place) }
{
    if place == q { other } else { place }
}

// The links of places without a member.
fn unlinked(alloc: Global, quanta: u64) -> Result<Links, AllocError>
    requires { quanta ≤ 2 ^ 32 }
    ensures count { IfOk result (λ l. length l.items ≡ quanta) }
    ensures limit { IfOk result (λ l. (quanta ≤ l.limit) × (2 ≤ l.limit)) }
    ensures other { IfOk result (λ l. LeadAway l.items) }
{
    let mut links = Links::make(alloc, quanta, quanta)?;
    if quanta > 0 {
        links.set(0, other_than(0));
    }
    Ok(links)
}

// A place other than `q`.
fn other_than(q: u64) -> u64
    ensures { result ≡ other_than q }
{
    if q == 0 { 1 } else { 0 }
}
