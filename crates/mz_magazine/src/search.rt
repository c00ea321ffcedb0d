//! What is looked for over all regions of a row, the lowest first.
ghost use Rattle.std.specs.Prelude.{◌≡◌, ℕ, ◌+◌, ◌*◌, ◌^◌, ◌<◌, ◌≤◌, ◌==◌, length, find, nat_lt, IsTrue, MatchOption};
ghost use Rattle.std.specs.List.{All, AllWithin};
ghost use Rattle.std.specs.Option.{option_map};
ghost use Rattle.std.specs.Int.{IsPowerOfTwo};
ghost use Rattle.mz_base.specs.Limits.{IsFrom};
ghost use Rattle.mz_base.specs.Lists.{size_sum};
ghost use Rattle.mz_magazine.specs.Members.{AreInOrder, IsServed, region_has_room};

use crate::member::Member;
use mz_ground::Span;

/// How many of these regions, which are in order, begin at or below the address `a`.
pub(crate) fn count_below<const Q: usize, const N: usize>(members: &[Member<Q, N>], a: u64) -> usize
    requires { AreInOrder Q N 0 members.now }
    ensures within { result ≤ length members.now }
    ensures below { AllWithin (λ r. r.first ≤ a) members.now 0 result }
    ensures above { AllWithin (λ r. a < r.first) members.now result (length members.now) }
{
    let mut low = 0;
    let mut high = members.len();
    while low < high {
        let middle = low + (high - low) / 2;
        if members[middle].first() <= a {
            low = middle + 1;
        } else {
            high = middle;
        }
    }
    low
}

/// A new block in the lowest region with room.
pub(crate) fn alloc_in_lowest<const Q: usize, const N: usize>(
    members: &mut [Member<Q, N>],
    n: u64,
    al: u64,
) -> Option<Span>
    requires quanta { IsFrom 1 64 n }
    requires power { IsPowerOfTwo al }
    requires range { al ≤ 16384 }
    ensures { MatchOption result
        ((members.new ≡ members.old) × All (λ r. ¬ IsTrue (region_has_room (Q * N) (Q * n) al r)) members.old)
        (λ s. IsServed Q N (Q * n) al members.old s members.new) }
{
    for i in 0..members.len() {
        let span = members[i].alloc(n, al);
        if span.is_some() {
            return span;
        }
    }
    None
}

/// The first address of the lowest region with room for `n` quanta at multiples of `al` bytes.
pub(crate) fn lowest_with_room<const Q: usize, const N: usize>(
    members: &[Member<Q, N>],
    n: u64,
    al: u64,
) -> Option<u64>
    requires quanta { IsFrom 1 64 n }
    requires power { IsPowerOfTwo al }
    requires range { al ≤ 16384 }
    ensures { result ≡ option_map (λ r. r.first) (find (region_has_room (Q * N) (Q * n) al) members.now) }
{
    for member in members {
        if member.has_room(n, al) {
            return Some(member.first());
        }
    }
    None
}

/// The first address of the lowest region without live blocks.
pub(crate) fn lowest_unused<const Q: usize, const N: usize>(members: &[Member<Q, N>]) -> Option<u64>
    ensures { result ≡ option_map (λ r. r.first) (find (λ r. length r.live == 0) members.now) }
{
    for member in members {
        if member.count() == 0 {
            return Some(member.first());
        }
    }
    None
}

/// The first address of the lowest region of which less than three quarters are live.
pub(crate) fn lowest_sparse<const Q: usize, const N: usize>(members: &[Member<Q, N>]) -> Option<u64>
    ensures { result ≡ option_map (λ r. r.first) (find (λ r. nat_lt (4 * size_sum r.live) (3 * (Q * N))) members.now) }
{
    for member in members {
        let live = member.live_bytes();
        let len = (Q * N) as u64;
        if live < len - len / 4 {
            return Some(member.first());
        }
    }
    None
}
