//! How a request for large is served: by a cached run, or by a fresh one.
ghost use Rattle.std.specs.Prelude.{◌≡◌, ◌≤◌, [], ◌∷◌};
ghost use Rattle.mz_events.specs.declared.event.Event.TheVariants as event;
ghost use Rattle.mz_events.specs.declared.place.Place.TheVariants as place;
ghost use Rattle.mz_book.specs.Account.{known, entry_at};
ghost use Rattle.mz_rack.specs.Runs.{IsFoundRun};
ghost use Rattle.mz_rack.specs.Stages.{Keeps, at_pages, LetsGo};
ghost use Rattle.mz_rack.specs.LargeStages.{IsLargeWay, CanAskLarge, ReadyLarge, TriedCache, NoneFits, BothHeld, SeeksRun, IsFreshRun, ServedLarge};

use crate::flush::seek;
use crate::keeper::Keeper;
use crate::laws::of_books;
use crate::lot::Null;
use crate::way::LargeWay;
use mz_base::PAGE;
use mz_book::Book;
use mz_events::laws::best_fits;
use mz_events::laws::entries::states_split;
use mz_events::laws::holding::others_leave_what_is_held;
use mz_events::{Event, Place};
use mz_ground::Span;
use mz_record::laws::moments;
use std::sync::Wait;

/// Serves a request for a block of `n` pages at the alignment `al`. Nothing is held before and afterwards.
pub(crate) fn serve_large<B: Book<Keeper>, R: Wait>(
    rt: &R,
    book: &mut B,
    w: &LargeWay,
    n: u64,
    al: u64,
) -> Result<Span, Null>
    requires can { CanAskLarge (B.account book.old) w.now n al }
    requires nothing_held { (B.account book.old).held ≡ [] }
    requires room { 36 ≤ (B.account book.old).spare }
    ensures { ServedLarge [] 0 (B.account book.old) w.now n al result (B.account book.new) }
{
    of_books();
    let mut large = book.hold(rt, w.l);
    match try_cache(book, w, &mut large, n, al) {
        Ok(span) => {
            book.release(w.l, large);
            Ok(span)
        }
        Err(full) => from_free_pages(rt, book, w, large, full, n, al),
    }
}

// Makes the cached run that fits best a block, or notes that none fits, and answers the ticket of that.
fn try_cache<B: Book<Keeper>>(
    book: &mut B,
    w: &LargeWay,
    large: &mut Keeper,
    n: u64,
    al: u64,
) -> Result<Span, u64>
    requires ready { ReadyLarge (B.account book.old) w.now n al }
    requires room { 1 ≤ (B.account book.old).spare }
    requires stands { Keeps (B.account book.old) (place.Large w.now.zone) large.old }
    ensures tried { TriedCache (B.account book.old) w.now n al result (B.account book.new) }
    ensures stands { Keeps (B.account book.new) (place.Large w.now.zone) large.new }
{
    of_books();
    states_split();
    moments();
    best_fits();
    others_leave_what_is_held();
    let k = Place::Large { zone: w.zone };
    match large.reuse(n) {
        Some(span) => {
            book.note(Event::New {
                k,
                a: span.first(),
                s: span.len(),
                al,
            });
            Ok(span)
        }
        None => Err(book.note(Event::Full { k, n, al: 1 })),
    }
}

// No cached run fits, as the ticket says: serves the request from a fresh run, or finds the pages dry.
fn from_free_pages<B: Book<Keeper>, R: Wait>(
    rt: &R,
    book: &mut B,
    w: &LargeWay,
    mut large: Keeper,
    full: u64,
    n: u64,
    al: u64,
) -> Result<Span, Null>
    requires none { NoneFits (B.account book.old) w.now n al }
    requires room { 35 ≤ (B.account book.old).spare }
    requires stands { Keeps (B.account book.old) (place.Large w.now.zone) large }
    ensures { ServedLarge (entry_at full (B.account book.old).caller (event.Full (place.Large w.now.zone) n 1) ∷ []) 1 (B.account book.old) w.now n al result (B.account book.new) }
{
    of_books();
    let mut pages = book.hold(rt, w.p);
    match seek(book, w.zone, &mut large, &mut pages, n, 1) {
        Ok(span) => {
            make_run(book, w, &mut large, &span, n, al);
            let_both_go(book, w, large, pages);
            Ok(span)
        }
        Err(dry) => {
            let_both_go(book, w, large, pages);
            Err(Null::Large {
                cache: full,
                pages: dry,
            })
        }
    }
}

// Gives large the run that is out of the free pages, and makes it a block.
fn make_run<B: Book<Keeper>>(
    book: &mut B,
    w: &LargeWay,
    large: &mut Keeper,
    run: &Span,
    n: u64,
    al: u64,
)
    requires seeks { SeeksRun (B.account book.old) w.now n al }
    requires room { 2 ≤ (B.account book.old).spare }
    requires stands { Keeps (B.account book.old) (place.Large w.now.zone) large.old }
    requires found { let s = B.account book.old in IsFoundRun s.site s.profile (known s at_pages).kept n 1 run.now }
    ensures fresh { IsFreshRun (B.account book.old) w.now n al run.now (B.account book.new) }
    ensures stands { Keeps (B.account book.new) (place.Large w.now.zone) large.new }
{
    of_books();
    let k = Place::Large { zone: w.zone };
    book.note(Event::Take {
        k,
        first: run.first() / PAGE,
        pages: n,
    });
    large.enter(run);
    book.note(Event::New {
        k,
        a: run.first(),
        s: run.len(),
        al,
    });
}

/// Gives both keepers back.
pub(crate) fn let_both_go<B: Book<Keeper>>(book: &mut B, w: &LargeWay, large: Keeper, pages: Keeper)
    requires way { IsLargeWay (B.account book.old).profile w.now }
    requires both { BothHeld (B.account book.old) w.now }
    requires stands_l { Keeps (B.account book.old) (place.Large w.now.zone) large }
    requires stands_p { Keeps (B.account book.old) place.Pages pages }
    ensures { LetsGo (B.account book.old) (B.account book.new) }
{
    of_books();
    book.release(w.p, pages);
    book.release(w.l, large);
}
