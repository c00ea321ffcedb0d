//! Where a block lives.
ghost use Rattle.std.specs.Prelude.{◌≡◌, ◌<◌, ◌≤◌, [], length, IfSome, MatchOption};
ghost use Rattle.mz_book.specs.Keepers.{keeper_count};
ghost use Rattle.mz_rack.specs.Freeing.{block_of};
ghost use Rattle.mz_rack.specs.FreeStages.{CanLook, PassedBy, IsThere, LivesAt};

use crate::keeper::Keeper;
use crate::laws::of_books;
use crate::lot::Lot;
use crate::way::{LargeWay, Way, find_large_way, find_way};
use mz_base::{Profile, Range, route};
use mz_book::Book;
use std::sync::Wait;

/// The place in which a block was found, the magazine or the depot of a way, or large of a zone, with its keeper.
#[derive(Drop)]
pub(crate) enum Home {
    Magazine(Way, Keeper),
    Depot(Way, Keeper),
    Large(LargeWay, Keeper),
}

/// Looks for the block in the places of its range in its zone, and begins again where none has it. The keeper of
/// the place that has it stays held. A large block is found at the first look, since large of its zone is one place.
pub(crate) fn find_home<B: Book<Keeper>, R: Wait>(
    rt: &R,
    book: &mut B,
    p: &Profile,
    lot: &Lot,
) -> Home
    requires { CanLook (B.account book.old) p.now lot.now }
    ensures { LivesAt (B.account book.old) lot.now.zone (block_of lot.now) result (B.account book.new) }
{
    of_books();
    for _ in rt.forever() {
        if let Some(home) = look_around(rt, book, p, lot) {
            return home;
        }
    }
    unreachable!()
}

// Looks for the block in each of the places once, in ascending order of their keepers' numbers, one held at a time. A
// zone that the profile doesn't have has no places.
fn look_around<B: Book<Keeper>, R: Wait>(
    rt: &R,
    book: &mut B,
    p: &Profile,
    lot: &Lot,
) -> Option<Home>
    requires { CanLook (B.account book.old) p.now lot.now }
    ensures { MatchOption result (PassedBy (B.account book.old) (B.account book.new))
        (λ h. LivesAt (B.account book.old) lot.now.zone (block_of lot.now) h (B.account book.new)) }
{
    of_books();
    if lot.zone() >= p.zones {
        None
    } else if route(lot.size()) == Range::Large {
        look_in_large(rt, book, p, lot)
    } else {
        look_in_regions(rt, book, p, lot)
    }
}

// Large of the lot's zone.
fn look_in_large<B: Book<Keeper>, R: Wait>(
    rt: &R,
    book: &mut B,
    p: &Profile,
    lot: &Lot,
) -> Option<Home>
    requires can { CanLook (B.account book.old) p.now lot.now }
    requires zone { lot.now.zone < p.now.zones }
    ensures { MatchOption result (PassedBy (B.account book.old) (B.account book.new))
        (λ h. LivesAt (B.account book.old) lot.now.zone (block_of lot.now) h (B.account book.new)) }
{
    of_books();
    let way = find_large_way(p, lot.zone());
    match look_into(rt, book, way.l, lot) {
        Some(large) => Some(Home::Large(way, large)),
        None => None,
    }
}

// The magazines of the lot's range, and then their depot.
fn look_in_regions<B: Book<Keeper>, R: Wait>(
    rt: &R,
    book: &mut B,
    p: &Profile,
    lot: &Lot,
) -> Option<Home>
    requires can { CanLook (B.account book.old) p.now lot.now }
    requires zone { lot.now.zone < p.now.zones }
    requires small { length lot.now.span.bytes ≤ 32768 }
    ensures { MatchOption result (PassedBy (B.account book.old) (B.account book.new))
        (λ h. LivesAt (B.account book.old) lot.now.zone (block_of lot.now) h (B.account book.new)) }
{
    of_books();
    for mag in 0..p.magazines {
        let way = find_way(p, lot.zone(), mag, lot.size());
        if let Some(magazine) = look_into(rt, book, way.k, lot) {
            return Some(Home::Magazine(way, magazine));
        }
    }
    let way = find_way(p, lot.zone(), 0, lot.size());
    match look_into(rt, book, way.d, lot) {
        Some(depot) => Some(Home::Depot(way, depot)),
        None => None,
    }
}

// Takes the keeper of number `k`, and gives it back where the block isn't there.
fn look_into<B: Book<Keeper>, R: Wait>(rt: &R, book: &mut B, k: usize, lot: &Lot) -> Option<Keeper>
    requires below { k < keeper_count (B.account book.old).profile }
    requires nothing_held { (B.account book.old).held ≡ [] }
    requires some { 1 ≤ length lot.now.span.bytes }
    ensures { MatchOption result (PassedBy (B.account book.old) (B.account book.new))
        (λ v. IsThere (B.account book.old) k (block_of lot.now) v (B.account book.new)) }
{
    of_books();
    let keeper = book.hold(rt, k);
    if keeper.size_at(lot.first()) == lot.size() {
        Some(keeper)
    } else {
        book.release(k, keeper);
        None
    }
}
