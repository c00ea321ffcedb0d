//! How a block ends, and what its end calls for.
ghost use Rattle.std.specs.Prelude.{◌≡◌, ◌≢◌, ◌≤◌, ◌<◌, Some, IsTrue};
ghost use Rattle.mz_events.specs.declared.event.Event.TheVariants as event;
ghost use Rattle.mz_events.specs.declared.place.Place.TheVariants as place;
ghost use Rattle.mz_events.specs.Places.{depot_of, zone_of, spot_of};
ghost use Rattle.mz_events.specs.Changes.{without_run};
ghost use Rattle.mz_events.specs.Standing.{Stands};
ghost use Rattle.mz_large.specs.Large.{run_of_span};
ghost use Rattle.mz_events.specs.State.{is_open};
ghost use Rattle.mz_book.specs.Keepers.{keeper_of};
ghost use Rattle.mz_book.specs.Account.{state_of, known};
ghost use Rattle.mz_rack.specs.Ways.{IsWay};
ghost use Rattle.mz_rack.specs.Stages.{Keeps, at_depot};
ghost use Rattle.mz_rack.specs.LargeStages.{IsLargeWay, large_spot};
ghost use Rattle.mz_rack.specs.Flushing.{PushedOut};
ghost use Rattle.mz_rack.specs.Freeing.{block_of};
ghost use Rattle.mz_rack.specs.FreeStages.{LivesIn, IsHome, HasHome, block_in, HasEnded, OwesMove, OwesBack, OwesRun, Settles, HasMoved, HasPushed, IsOver, IsDenied};

use crate::home::Home;
use crate::keeper::Keeper;
use crate::large::let_both_go;
use crate::laws::of_books;
use crate::lot::Lot;
use crate::way::{LargeWay, Way};
use mz_base::PAGE;
use mz_book::Book;
use mz_events::laws::entries::states_split;
use mz_events::{Event, Place};
use mz_ground::Span;
use mz_record::laws::moments;
use std::sync::Wait;

/// Ends a block where it lives, with all that its end calls for. Nothing is held afterwards.
pub(crate) fn end_block<B: Book<Keeper>, R: Wait>(rt: &R, book: &mut B, home: Home, span: Span)
    requires home { HasHome (B.account book.old) (block_in span) home }
    requires space { span.space ≡ (B.account book.old).site }
    requires room { 3 ≤ (B.account book.old).spare }
    ensures { IsOver (B.account book.old) (block_in span) (B.account book.new) }
{
    of_books();
    states_split();
    moments();
    match home {
        Home::Magazine(way, magazine) => end_in_magazine(rt, book, &way, magazine, span),
        Home::Depot(way, mut depot) => {
            end_in(book, way.depot, &mut depot, span);
            settle(rt, book, &way, depot);
        }
        Home::Large(way, large) => end_in_large(rt, book, &way, large, span),
    }
}

/// Says that a block is of another zone than `zone`, and answers the ticket of that. Nothing is held afterwards.
pub(crate) fn deny<B: Book<Keeper>>(book: &mut B, home: Home, zone: u32, lot: &Lot) -> u64
    requires home { IsHome (B.account book.old) lot.now.zone (block_of lot.now) home }
    requires zone { zone < (B.account book.old).profile.zones }
    requires zone_open { IsTrue (is_open (state_of (B.account book.old)) zone) }
    requires of_another { lot.now.zone ≢ zone }
    requires room { 1 ≤ (B.account book.old).spare }
    ensures { IsDenied (B.account book.old) zone (block_of lot.now) result (B.account book.new) }
{
    of_books();
    match home {
        Home::Magazine(way, magazine) => { deny_in(book, way.magazine, way.k, magazine, zone, lot) }
        Home::Depot(way, depot) => deny_in(book, way.depot, way.d, depot, zone, lot),
        Home::Large(way, large) => {
            let place = Place::Large { zone: way.zone };
            deny_in(book, place, way.l, large, zone, lot)
        }
    }
}

// Ends a block of the magazine, and gives the magazine back, with the region that it owes.
fn end_in_magazine<B: Book<Keeper>, R: Wait>(
    rt: &R,
    book: &mut B,
    w: &Way,
    mut magazine: Keeper,
    span: Span,
)
    requires way { IsWay (B.account book.old).profile w.now }
    requires lives { LivesIn (B.account book.old) w.now.magazine (block_in span) }
    requires stands { Keeps (B.account book.old) w.now.magazine magazine }
    requires space { span.space ≡ (B.account book.old).site }
    requires room { 3 ≤ (B.account book.old).spare }
    ensures { IsOver (B.account book.old) (block_in span) (B.account book.new) }
{
    of_books();
    states_split();
    moments();
    end_in(book, w.magazine, &mut magazine, span);
    match magazine.surplus() {
        Some(first) => recirculate(rt, book, w, magazine, first),
        None => book.release(w.k, magazine),
    }
}

// Ends a block of large, and gives large back, and first the run that it owes to the pages, if it owes one.
fn end_in_large<B: Book<Keeper>, R: Wait>(
    rt: &R,
    book: &mut B,
    w: &LargeWay,
    mut large: Keeper,
    span: Span,
)
    requires way { IsLargeWay (B.account book.old).profile w.now }
    requires lives { LivesIn (B.account book.old) (place.Large w.now.zone) (block_in span) }
    requires stands { Keeps (B.account book.old) (place.Large w.now.zone) large }
    requires space { span.space ≡ (B.account book.old).site }
    requires room { 2 ≤ (B.account book.old).spare }
    ensures { IsOver (B.account book.old) (block_in span) (B.account book.new) }
{
    of_books();
    states_split();
    moments();
    let place = Place::Large { zone: w.zone };
    match end_in(book, place, &mut large, span) {
        Some(run) => push_out(rt, book, w, large, run),
        None => book.release(w.l, large),
    }
}

// Gives the run that large owes, and that came out of it, back to the pages, and then large.
fn push_out<B: Book<Keeper>, R: Wait>(rt: &R, book: &mut B, w: &LargeWay, large: Keeper, run: Span)
    requires owes { OwesRun (B.account book.old) w.now run }
    requires stands { let s = B.account book.old in Stands large s.site s.profile (place.Large w.now.zone) (without_run (run_of_span run) (known s (large_spot w.now)).kept) }
    requires room { 1 ≤ (B.account book.old).spare }
    ensures { HasPushed (B.account book.old) w.now run (B.account book.new) }
{
    of_books();
    states_split();
    moments();
    let mut pages = book.hold(rt, w.p);
    book.note(Event::Back {
        k: Place::Large { zone: w.zone },
        first: run.first() / PAGE,
        pages: run.len() / PAGE,
    });
    pages.put_run_back(run);
    let_both_go(book, w, large, pages);
}

// Ends a block of the place. Large hands out the run that it owes.
fn end_in<B: Book<Keeper>>(
    book: &mut B,
    place: Place,
    keeper: &mut Keeper,
    span: Span,
) -> Option<Span>
    requires lives { LivesIn (B.account book.old) place (block_in span) }
    requires stands { Keeps (B.account book.old) place keeper.old }
    requires space { span.space ≡ (B.account book.old).site }
    requires room { 1 ≤ (B.account book.old).spare }
    ensures ended { HasEnded (B.account book.old) place (block_in span) (B.account book.new) }
    ensures stands { let t = B.account book.new in PushedOut t.site place (known t (spot_of place)).kept (Stands keeper.new t.site t.profile place) result }
{
    of_books();
    let (a, s) = (span.first(), span.len());
    let pushed = keeper.free(span);
    book.note(Event::End { k: place, a, s });
    pushed
}

// Moves the region that begins at page `first`, which the magazine owes, to the depot, and gives both back.
fn recirculate<B: Book<Keeper>, R: Wait>(
    rt: &R,
    book: &mut B,
    w: &Way,
    mut magazine: Keeper,
    first: u64,
)
    requires owes { OwesMove (B.account book.old) w.now first }
    requires stands { Keeps (B.account book.old) w.now.magazine magazine }
    requires room { 2 ≤ (B.account book.old).spare }
    ensures { HasMoved (B.account book.old) w.now first (B.account book.new) }
{
    of_books();
    states_split();
    moments();
    let mut depot = book.hold(rt, w.d);
    let region = magazine.yield_region(first);
    book.note(Event::Move {
        first,
        from: w.magazine,
        to: w.depot,
    });
    depot.adopt(region);
    settle(rt, book, w, depot);
    book.release(w.k, magazine);
}

// Gives the depot back, and first the region that it owes to the pages, if it owes one.
fn settle<B: Book<Keeper>, R: Wait>(rt: &R, book: &mut B, w: &Way, depot: Keeper)
    requires owes { OwesBack (B.account book.old) w.now }
    requires stands { Keeps (B.account book.old) (depot_of w.now.magazine) depot }
    requires room { 1 ≤ (B.account book.old).spare }
    ensures { Settles (B.account book.old) w.now (B.account book.new) }
{
    of_books();
    match depot.unused() {
        Some(first) => give_back(rt, book, w, depot, first),
        None => book.release(w.d, depot),
    }
}

// Gives the region that begins at page `first`, which the depot owes, back to the pages, and then the depot.
fn give_back<B: Book<Keeper>, R: Wait>(rt: &R, book: &mut B, w: &Way, mut depot: Keeper, first: u64)
    requires owes { OwesBack (B.account book.old) w.now }
    requires first { (known (B.account book.old) (at_depot w.now)).duty ≡ Some (event.Back w.now.depot first w.now.pages) }
    requires stands { Keeps (B.account book.old) (depot_of w.now.magazine) depot }
    requires room { 1 ≤ (B.account book.old).spare }
    ensures { Settles (B.account book.old) w.now (B.account book.new) }
{
    of_books();
    states_split();
    moments();
    let mut pages = book.hold(rt, w.p);
    let region = depot.yield_region(first);
    book.note(Event::Back {
        k: w.depot,
        first,
        pages: w.pages,
    });
    pages.put_back(region);
    book.release(w.p, pages);
    book.release(w.d, depot);
}

// Says that a block of the place is of another zone, and gives the place's keeper back.
fn deny_in<B: Book<Keeper>>(
    book: &mut B,
    place: Place,
    number: usize,
    keeper: Keeper,
    zone: u32,
    lot: &Lot,
) -> u64
    requires lives { LivesIn (B.account book.old) place (block_of lot.now) }
    requires number { number ≡ keeper_of (B.account book.old).profile place }
    requires zone { zone < (B.account book.old).profile.zones }
    requires zone_open { IsTrue (is_open (state_of (B.account book.old)) zone) }
    requires of_another { zone_of place ≢ zone }
    requires stands { Keeps (B.account book.old) place keeper }
    requires room { 1 ≤ (B.account book.old).spare }
    ensures { IsDenied (B.account book.old) zone (block_of lot.now) result (B.account book.new) }
{
    of_books();
    let ticket = book.note(Event::No {
        k: place,
        zone,
        a: lot.first(),
        s: lot.size(),
    });
    book.release(number, keeper);
    ticket
}
