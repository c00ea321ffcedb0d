//! How a block gets another size where it is.
ghost use Rattle.std.specs.Prelude.{◌≡◌, ◌≤◌, ◌||◌, length, IsTrue};
ghost use Rattle.mz_base.specs.declared.range.Range.TheVariants as range;
ghost use Rattle.mz_base.specs.Sizes.{route_of, good_size_of, is_size};
ghost use Rattle.mz_events.specs.Places.{is_magazine, is_depot, is_size_of};
ghost use Rattle.mz_record.specs.Resized.{stays_large};
ghost use Rattle.mz_book.specs.Keepers.{keeper_of};
ghost use Rattle.mz_rack.specs.Stages.{Keeps};
ghost use Rattle.mz_rack.specs.Freeing.{block_of};
ghost use Rattle.mz_rack.specs.FreeStages.{CanLook, LivesIn};
ghost use Rattle.mz_rack.specs.ResizeStages.{IsSettled};

use crate::home::{Home, find_home};
use crate::keeper::Keeper;
use crate::laws::of_books;
use crate::lot::Lot;
use mz_base::{PAGE, Profile, units};
use mz_book::Book;
use mz_events::laws::separation::live_blocks_have_their_forms;
use mz_events::{Event, Place};
use std::sync::Wait;

/// Whether a large block of `s` bytes stays as it is for `n` bytes: it has room for them, and wastes less than they need.
pub(crate) fn stays(s: u64, n: u64) -> bool
    requires large { route_of n ≡ range.Large }
    ensures { result ≡ stays_large s (good_size_of n) }
{
    match units(n).checked_mul(PAGE) {
        Some(size) if size <= s => s - size < size,
        _ => false,
    }
}

/// Gives a tiny or small block `size` bytes, which are a size of its range, in the region where it lives. It answers false, and nothing
/// changes, where the quanta that follow don't allow it. Nothing is held afterwards.
pub(crate) fn resize_at_home<B: Book<Keeper>, R: Wait>(
    rt: &R,
    book: &mut B,
    p: &Profile,
    lot: &mut Lot,
    size: u64,
) -> bool
    requires look { CanLook (B.account book.old) p.now lot.old }
    requires space { lot.old.span.space ≡ (B.account book.old).site }
    requires small { length lot.old.span.bytes ≤ 32768 }
    requires size { IsTrue (is_size (route_of (length lot.old.span.bytes)) size) }
    requires room { 1 ≤ (B.account book.old).spare }
    ensures { IsSettled (B.account book.old) lot.old size result (B.account book.new) lot.new }
{
    of_books();
    live_blocks_have_their_forms();
    match find_home(rt, book, p, lot) {
        Home::Magazine(way, magazine) => {
            resize_in(book, way.magazine, way.k, magazine, lot, size)
        }
        Home::Depot(way, depot) => resize_in(book, way.depot, way.d, depot, lot, size),
        Home::Large(_, _) => unreachable!(),
    }
}

// Gives a block of the place `size` bytes, where the place has room for them, and gives the place's keeper back.
fn resize_in<B: Book<Keeper>>(
    book: &mut B,
    place: Place,
    number: usize,
    mut keeper: Keeper,
    lot: &mut Lot,
    size: u64,
) -> bool
    requires lives { LivesIn (B.account book.old) place (block_of lot.old) }
    requires regions { IsTrue (is_magazine place || is_depot place) }
    requires number { number ≡ keeper_of (B.account book.old).profile place }
    requires stands { Keeps (B.account book.old) place keeper }
    requires space { lot.old.span.space ≡ (B.account book.old).site }
    requires size { IsTrue (is_size_of place size) }
    requires room { 1 ≤ (B.account book.old).spare }
    ensures { IsSettled (B.account book.old) lot.old size result (B.account book.new) lot.new }
{
    of_books();
    live_blocks_have_their_forms();
    let (a, s) = (lot.first(), lot.size());
    if !keeper.resize(&mut lot.span, size) {
        book.release(number, keeper);
        return false;
    }
    book.note(Event::Size {
        k: place,
        a,
        s,
        s2: size,
    });
    book.release(number, keeper);
    true
}
