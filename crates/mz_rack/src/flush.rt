//! How a request finds pages, and makes some free where they are dry.
ghost use Rattle.std.specs.Prelude.{◌≡◌, ◌+◌, ◌*◌, ◌≤◌, false, length};
ghost use Rattle.mz_base.specs.Room.{has_free};
ghost use Rattle.mz_events.specs.declared.place.Place.TheVariants as place;
ghost use Rattle.mz_events.specs.Places.{nano_start};
ghost use Rattle.mz_book.specs.Account.{known};
ghost use Rattle.mz_rack.specs.Stages.{Keeps, at_pages};
ghost use Rattle.mz_rack.specs.Seeking.{CanSeek, cached_in, Flushes, Sought, KeepsSought};

use crate::keeper::Keeper;
use crate::laws::of_books;
use mz_base::PAGE;
use mz_book::Book;
use mz_events::laws::entries::states_split;
use mz_events::{Event, Place};
use mz_ground::Span;
use mz_record::laws::moments;

/// The lowest free run of `w` pages at a multiple of `al`. As long as the pages are dry, the run that large of the zone
/// cached first goes back to them. Where they are dry and nothing is cached, answers the ticket of the entry that says so.
pub(crate) fn seek<B: Book<Keeper>>(
    book: &mut B,
    zone: u32,
    large: &mut Keeper,
    pages: &mut Keeper,
    w: u64,
    al: u64,
) -> Result<Span, u64>
    requires can { CanSeek (B.account book.old) zone w al }
    requires room { 2 * length (cached_in (B.account book.old) zone) + 1 ≤ (B.account book.old).spare }
    requires stands_l { Keeps (B.account book.old) (place.Large zone) large.old }
    requires stands_p { Keeps (B.account book.old) place.Pages pages.old }
    ensures sought { Sought (B.account book.old) zone w al result (B.account book.new) }
    ensures stands_l { Keeps (B.account book.new) (place.Large zone) large.new }
    ensures stands_p { KeepsSought (B.account book.new) result pages.new }
{
    of_books();
    match pages.take_run(w, al) {
        Some(span) => Ok(span),
        None => match flush(book, zone, large, pages, w, al) {
            Ok(()) => seek(book, zone, large, pages, w, al),
            Err(dry) => Err(dry),
        },
    }
}

// Notes that the pages are dry, and gives the run that large cached first back to them; where nothing is cached, answers the
// ticket of what was noted.
fn flush<B: Book<Keeper>>(
    book: &mut B,
    zone: u32,
    large: &mut Keeper,
    pages: &mut Keeper,
    w: u64,
    al: u64,
) -> Result<(), u64>
    requires can { CanSeek (B.account book.old) zone w al }
    requires dry { let s = B.account book.old in has_free (nano_start s.profile) (known s at_pages).kept.taken w al ≡ false }
    requires room { 2 * length (cached_in (B.account book.old) zone) + 1 ≤ (B.account book.old).spare }
    requires stands_l { Keeps (B.account book.old) (place.Large zone) large.old }
    requires stands_p { Keeps (B.account book.old) place.Pages pages.old }
    ensures flushes { Flushes (B.account book.old) zone w al result (B.account book.new) }
    ensures stands_l { Keeps (B.account book.new) (place.Large zone) large.new }
    ensures stands_p { Keeps (B.account book.new) place.Pages pages.new }
{
    of_books();
    states_split();
    moments();
    let dry = book.note(Event::Dry { zone, pages: w, al });
    let Some(run) = large.flush_one() else {
        return Err(dry);
    };
    book.note(Event::Back {
        k: Place::Large { zone },
        first: run.first() / PAGE,
        pages: run.len() / PAGE,
    });
    pages.put_run_back(run);
    Ok(())
}
