//! A book of two zones, both of which are open, and nano with two seats.
ghost use Rattle.std.specs.Prelude.{◌≡◌, ◌≤◌, IfOk};
ghost use Rattle.mz_base.specs.Limits.{IsWithinLimits};
ghost use Rattle.mz_nano.specs.SeatLists.{SitsAt};
ghost use Rattle.mz_zone.specs.Calling.{with_seat};
ghost use Rattle.mz_zone_tests.specs.Tested.{HandLaws, IsReady};
ghost use Rattle.mz_zone_tests.specs.TwoZones.{two_zones, HoldsFirst, HasOpened};

use mz_base::Profile;
use mz_book::laws::hands::hands_after_an_event;
use mz_book::{Book, PlainBook};
use mz_events::laws::{entries, events, holding};
use mz_events::{Entry, Event, Place};
use mz_ground::Space;
use mz_nano::{Nano, NanoSeat};
use mz_rack::Keeper;
use mz_record::laws::hands_after_requests;
use std::alloc::Global;
use std::sync::Wait;
use std::test::Fail;

/// What calls make of a hand.
pub fn of_hands()
    ensures { HandLaws }
{
    hands_after_an_event();
    hands_after_requests();
}

/// Of two zones and 258 pages, of which the last two are nano's: these begin at 4,194,304.
pub fn profile() -> Profile
    ensures limits { IsWithinLimits result }
    ensures same { result ≡ two_zones }
{
    Profile {
        pages: 258,
        callers: 2,
        magazines: 2,
        nano: 2,
        most_gen: 1_024,
        zones: 2,
    }
}

/// Opens zone 1 in a book without entries. The first `n` keepers of the zone are held; the others are taken, and given
/// back then.
fn open_zone<B: Book<Keeper>, R: Wait>(rt: &R, book: &mut B, n: usize)
    requires most { n ≤ 7 }
    requires holds { HoldsFirst (B.account book.old) n }
    ensures { HasOpened (B.account book.old) (B.account book.new) }
{
    entries::states_split();
    events::when_an_event_fits();
    holding::what_an_event_leaves();
    holding::what_an_event_reads();
    if n == 7 {
        book.note(Event::Open { zone: 1 });
        return;
    }
    let keeper = book.hold(rt, 7 + n);
    open_zone(rt, book, n + 1);
    book.release(7 + n, keeper);
}

/// A book of both zones in which the one entry opened zone 1, and nano with the seats of callers 0 and 1.
pub fn setting<R: Wait>(
    rt: &R,
    alloc: Global,
) -> Result<(PlainBook<Keeper>, Nano, NanoSeat, NanoSeat), Fail>
    ensures ready { IfOk result (λ s. IsReady (with_seat (⟦<PlainBook<Keeper> as Book<Keeper>>⟧.account s.0) s.1 s.2) two_zones 0) }
    ensures second { IfOk result (λ s. SitsAt s.1 s.3) }
{
    entries::states_split();
    entries::zones_after_an_event();
    let p = profile();
    let span = Space::new(alloc, p.pages)?;
    let (low, high) = span.split((p.pages - p.nano) * 16_384);
    let keepers = Keeper::all(alloc, &p, low)?;
    let mut book = PlainBook::new(alloc, &p, keepers)?;
    book.reserve(1)?;
    open_zone(rt, &mut book, 0);
    let (nano, mut seats) = Nano::open(alloc, high, p.most_gen, p.callers)?;
    let Some(second) = seats.pop() else {
        return Err(Fail::new("there are two seats"));
    };
    let Some(first) = seats.pop() else {
        return Err(Fail::new("there are two seats"));
    };
    Ok((book, nano, first, second))
}

/// Whether these events were noted behind the one that opened zone 1, and no others.
pub fn noted(history: &[Entry], events: &[Event]) -> bool {
    history.len() >= 1
        && history[1..]
            .iter()
            .map(|e| e.event)
            .eq(events.iter().copied())
}

pub fn tiny(zone: u32, mag: u32) -> Place {
    Place::Tiny { zone, mag }
}

pub fn tiny_depot(zone: u32) -> Place {
    Place::TinyDepot { zone }
}

pub fn full(k: Place, n: u64) -> Event {
    Event::Full { k, n, al: 16 }
}

pub fn take(k: Place, first: u64, pages: u64) -> Event {
    Event::Take { k, first, pages }
}

pub fn new(k: Place, a: u64, s: u64) -> Event {
    Event::New { k, a, s, al: 16 }
}

pub fn end(k: Place, a: u64, s: u64) -> Event {
    Event::End { k, a, s }
}

pub fn no(k: Place, zone: u32, a: u64, s: u64) -> Event {
    Event::No { k, zone, a, s }
}

pub fn dry(zone: u32, pages: u64, al: u64) -> Event {
    Event::Dry { zone, pages, al }
}
