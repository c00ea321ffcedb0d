//! How a request goes from place to place.
ghost use Rattle.std.specs.Prelude.{◌≡◌, ◌≤◌, [], ◌∷◌, Ok, IsTrue};
ghost use Rattle.mz_events.specs.declared.event.Event.TheVariants as event;
ghost use Rattle.mz_events.specs.declared.place.Place.TheVariants as place;
ghost use Rattle.mz_events.specs.Places.{depot_of};
ghost use Rattle.mz_events.specs.Rules.{is_lowest_with_room};
ghost use Rattle.mz_book.specs.Account.{known, entry_at};
ghost use Rattle.mz_rack.specs.Ways.{IsWay};
ghost use Rattle.mz_rack.specs.Answering.{IsCut};
ghost use Rattle.mz_rack.specs.Stages.{Keeps, HasRoom, at_magazine, at_depot, at_pages, CanAsk, Ready, Tried, IsFull, HoldsBoth, IsMovedOver, AreFull, AllHeld, Seeks, IsFresh, LetsGo, Served};

use crate::flush::seek;
use crate::keeper::Keeper;
use crate::laws::of_books;
use crate::lot::Null;
use crate::region::AnyRegion;
use crate::way::Way;
use mz_book::Book;
use mz_events::Event;
use mz_ground::Span;
use std::sync::Wait;

/// Serves a request for a block of `n` bytes, a size of the range, at the alignment `al`. Nothing is held before and
/// afterwards.
pub(crate) fn serve<B: Book<Keeper>, R: Wait>(
    rt: &R,
    book: &mut B,
    w: &Way,
    n: u64,
    al: u64,
) -> Result<Span, Null>
    requires can { CanAsk (B.account book.old) w.now n al }
    requires nothing_held { (B.account book.old).held ≡ [] }
    requires room { 36 ≤ (B.account book.old).spare }
    ensures { Served [] 0 (B.account book.old) w.now n al result (B.account book.new) }
{
    of_books();
    let mut magazine = book.hold(rt, w.k);
    match try_block(book, w, &mut magazine, n, al) {
        Ok(span) => {
            book.release(w.k, magazine);
            Ok(span)
        }
        Err(full) => from_depot(rt, book, w, magazine, full, n, al),
    }
}

// Makes a block in the magazine, or notes that it is full, and answers the ticket of that.
fn try_block<B: Book<Keeper>>(
    book: &mut B,
    w: &Way,
    magazine: &mut Keeper,
    n: u64,
    al: u64,
) -> Result<Span, u64>
    requires ready { Ready (B.account book.old) w.now n al }
    requires room { 1 ≤ (B.account book.old).spare }
    requires stands { Keeps (B.account book.old) w.now.magazine magazine.old }
    ensures tried { Tried (B.account book.old) w.now n al result (B.account book.new) }
    ensures stands { Keeps (B.account book.new) w.now.magazine magazine.new }
{
    of_books();
    match magazine.alloc(n, al) {
        Some(span) => {
            book.note(Event::New {
                k: w.magazine,
                a: span.first(),
                s: n,
                al,
            });
            Ok(span)
        }
        None => Err(book.note(Event::Full {
            k: w.magazine,
            n,
            al,
        })),
    }
}

// Makes a block in a magazine that has room.
fn make_block<B: Book<Keeper>>(
    book: &mut B,
    w: &Way,
    magazine: &mut Keeper,
    n: u64,
    al: u64,
) -> Span
    requires ready { Ready (B.account book.old) w.now n al }
    requires room { 1 ≤ (B.account book.old).spare }
    requires stands { Keeps (B.account book.old) w.now.magazine magazine.old }
    requires has_room { HasRoom (known (B.account book.old) (at_magazine w.now)).kept n al }
    ensures tried { Tried (B.account book.old) w.now n al (Ok result) (B.account book.new) }
    ensures stands { Keeps (B.account book.new) w.now.magazine magazine.new }
{
    match try_block(book, w, magazine, n, al) {
        Ok(span) => span,
        Err(_) => unreachable!(),
    }
}

// The magazine is full, as the ticket says: serves the request from the depot's lowest region with room, or from a fresh
// region.
fn from_depot<B: Book<Keeper>, R: Wait>(
    rt: &R,
    book: &mut B,
    w: &Way,
    magazine: Keeper,
    full: u64,
    n: u64,
    al: u64,
) -> Result<Span, Null>
    requires full { IsFull (B.account book.old) w.now n al }
    requires room { 35 ≤ (B.account book.old).spare }
    requires stands { Keeps (B.account book.old) w.now.magazine magazine }
    ensures { Served (entry_at full (B.account book.old).caller (event.Full w.now.magazine n al) ∷ []) 1 (B.account book.old) w.now n al result (B.account book.new) }
{
    of_books();
    let depot = book.hold(rt, w.d);
    match depot.fits(n, al) {
        Some(first) => Ok(move_over(book, w, magazine, depot, first, n, al)),
        None => {
            let depot_full = book.note(Event::Full { k: w.depot, n, al });
            from_pages(rt, book, w, magazine, depot, full, depot_full, n, al)
        }
    }
}

// Moves the region at page `first`, the depot's lowest with room, to the magazine, and serves the request from it.
fn move_over<B: Book<Keeper>>(
    book: &mut B,
    w: &Way,
    mut magazine: Keeper,
    mut depot: Keeper,
    first: u64,
    n: u64,
    al: u64,
) -> Span
    requires both { HoldsBoth (B.account book.old) w.now n al }
    requires room { 2 ≤ (B.account book.old).spare }
    requires stands_k { Keeps (B.account book.old) w.now.magazine magazine }
    requires stands_d { Keeps (B.account book.old) (depot_of w.now.magazine) depot }
    requires lowest { IsTrue (is_lowest_with_room (known (B.account book.old) (at_depot w.now)).kept first (n, al)) }
    ensures { IsMovedOver (B.account book.old) w.now n al first result (B.account book.new) }
{
    of_books();
    let region = depot.yield_region(first);
    book.note(Event::Move {
        first,
        from: w.depot,
        to: w.magazine,
    });
    magazine.adopt(region);
    let span = make_block(book, w, &mut magazine, n, al);
    book.release(w.d, depot);
    book.release(w.k, magazine);
    span
}

// Magazine and depot are full, as the tickets say: serves the request from a fresh region, or finds the pages dry.
fn from_pages<B: Book<Keeper>, R: Wait>(
    rt: &R,
    book: &mut B,
    w: &Way,
    mut magazine: Keeper,
    depot: Keeper,
    full: u64,
    depot_full: u64,
    n: u64,
    al: u64,
) -> Result<Span, Null>
    requires full { AreFull (B.account book.old) w.now n al }
    requires room { 34 ≤ (B.account book.old).spare }
    requires stands_k { Keeps (B.account book.old) w.now.magazine magazine }
    requires stands_d { Keeps (B.account book.old) (depot_of w.now.magazine) depot }
    ensures { let c = (B.account book.old).caller in
        Served (entry_at full c (event.Full w.now.magazine n al) ∷ entry_at depot_full c (event.Full w.now.depot n al) ∷ []) 2 (B.account book.old) w.now n al result (B.account book.new) }
{
    of_books();
    let mut large = book.hold(rt, w.l);
    let mut pages = book.hold(rt, w.p);
    match seek(book, w.zone, &mut large, &mut pages, w.pages, w.pages) {
        Ok(run) => {
            let region = pages.fit(run);
            let span = make_fresh(book, w, &mut magazine, region, n, al);
            let_go(book, w, magazine, depot, large, pages);
            Ok(span)
        }
        Err(dry) => {
            let_go(book, w, magazine, depot, large, pages);
            Err(Null::Ranged {
                magazine: full,
                depot: depot_full,
                pages: dry,
            })
        }
    }
}

// Gives the magazine a fresh region, and makes the block there.
fn make_fresh<B: Book<Keeper>>(
    book: &mut B,
    w: &Way,
    magazine: &mut Keeper,
    region: AnyRegion,
    n: u64,
    al: u64,
) -> Span
    requires seeks { Seeks (B.account book.old) w.now n al }
    requires room { 2 ≤ (B.account book.old).spare }
    requires stands { Keeps (B.account book.old) w.now.magazine magazine.old }
    requires cut { let s = B.account book.old in IsCut s.site s.profile w.now.magazine (known s at_pages).kept w.now.pages region }
    ensures fresh { IsFresh (B.account book.old) w.now n al region result (B.account book.new) }
    ensures stands { Keeps (B.account book.new) w.now.magazine magazine.new }
{
    of_books();
    book.note(Event::Take {
        k: w.magazine,
        first: region.first_page(),
        pages: w.pages,
    });
    magazine.adopt(region);
    make_block(book, w, magazine, n, al)
}

// Gives all four keepers back.
fn let_go<B: Book<Keeper>>(
    book: &mut B,
    w: &Way,
    magazine: Keeper,
    depot: Keeper,
    large: Keeper,
    pages: Keeper,
)
    requires way { IsWay (B.account book.old).profile w.now }
    requires all { AllHeld (B.account book.old) w.now }
    requires stands_k { Keeps (B.account book.old) w.now.magazine magazine }
    requires stands_d { Keeps (B.account book.old) (depot_of w.now.magazine) depot }
    requires stands_l { Keeps (B.account book.old) (place.Large w.now.zone) large }
    requires stands_p { Keeps (B.account book.old) place.Pages pages }
    ensures { LetsGo (B.account book.old) (B.account book.new) }
{
    of_books();
    book.release(w.p, pages);
    book.release(w.l, large);
    book.release(w.d, depot);
    book.release(w.k, magazine);
}
