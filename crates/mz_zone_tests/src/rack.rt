//! A rack by itself, over a plain book of two zones.
ghost use Rattle.std.specs.Prelude.{◌≡◌, ℕ, ◌<◌, ◌≤◌, IfOk};
ghost use Rattle.mz_base.specs.declared.profile.Profile.{Profile as Limits};
ghost use Rattle.mz_rack.specs.Lots.{LotView};
ghost use Rattle.mz_rack.specs.Serving.{CanServe};
ghost use Rattle.mz_rack.specs.Freeing.{IsFreeable};

use crate::setting::{
    dry, full, new, no, noted, of_hands, profile, setting, take, tiny, tiny_depot,
};
use mz_book::{Book, PlainBook};
use mz_events::{Event, Place};
use mz_rack::{Keeper, Lot, Null, Rack};
use std::alloc::{AllocError, Global};
use std::sync::Wait;
use std::test::Fail;

// The book, and a rack for each zone.
fn racks<R: Wait>(rt: &R, alloc: Global) -> Result<(PlainBook<Keeper>, Rack, Rack), Fail>
    ensures first { IfOk result (λ s. CanServe (⟦<PlainBook<Keeper> as Book<Keeper>>⟧.account s.0) s.1.profile s.1.zone 0) }
    ensures second { IfOk result (λ s. CanServe (⟦<PlainBook<Keeper> as Book<Keeper>>⟧.account s.0) s.2.profile s.2.zone 0) }
    ensures first_callers { IfOk result (λ s. s.1.profile.callers ≡ 2) }
    ensures second_callers { IfOk result (λ s. s.2.profile.callers ≡ 2) }
{
    let (book, _nano, _seat, _second) = setting(rt, alloc)?;
    let p = profile();
    let first = Rack::new(alloc, &p, 0)?;
    let second = Rack::new(alloc, &p, 1)?;
    Ok((book, first, second))
}

// Makes room for a request's entries, and asks as the caller. Requests can be made again then wherever they could be
// before.
fn ask<R: Wait>(
    rt: &R,
    rack: &Rack,
    book: &mut PlainBook<Keeper>,
    caller: u32,
    n: u64,
) -> Result<Result<Lot, Null>, AllocError>
    requires can { CanServe (⟦<PlainBook<Keeper> as Book<Keeper>>⟧.account book.old) rack.now.profile rack.now.zone 0 }
    requires caller { caller < rack.now.profile.callers }
    ensures { IfOk result (λ r. (p : Limits) (z : ℕ) → CanServe (⟦<PlainBook<Keeper> as Book<Keeper>>⟧.account book.old) p z 0 → CanServe (⟦<PlainBook<Keeper> as Book<Keeper>>⟧.account book.new) p z 0) }
{
    book.act_as(caller);
    book.reserve(36)?;
    Ok(rack.alloc(rt, book, n, 16))
}

// Each caller asks both zones for 16 bytes. Says whether each request was served.
fn ask_both<R: Wait>(
    rt: &R,
    first: &Rack,
    second: &Rack,
    book: &mut PlainBook<Keeper>,
) -> Result<bool, AllocError>
    requires first { CanServe (⟦<PlainBook<Keeper> as Book<Keeper>>⟧.account book.old) first.now.profile first.now.zone 0 }
    requires second { CanServe (⟦<PlainBook<Keeper> as Book<Keeper>>⟧.account book.old) second.now.profile second.now.zone 0 }
    requires first_callers { first.now.profile.callers ≡ 2 }
    requires second_callers { second.now.profile.callers ≡ 2 }
{
    let mut each = true;
    for caller in 0..2 {
        let here = ask(rt, first, book, caller, 16)?;
        let there = ask(rt, second, book, caller, 16)?;
        each &= here.is_ok() && there.is_ok();
    }
    Ok(each)
}

#[test]
fn each_magazine_of_each_zone_has_its_region(rt: HostRuntime) -> Result<(), Fail> {
    let (mut book, first, second) = racks(&rt, rt.alloc())?;
    let served = ask_both(&rt, &first, &second, &mut book)?;
    assert!(rt; served);
    let events = [
        full(tiny(0, 0), 16),
        full(tiny_depot(0), 16),
        take(tiny(0, 0), 0, 64),
        new(tiny(0, 0), 0, 16),
        full(tiny(1, 0), 16),
        full(tiny_depot(1), 16),
        take(tiny(1, 0), 64, 64),
        new(tiny(1, 0), 1_048_576, 16),
        full(tiny(0, 1), 16),
        full(tiny_depot(0), 16),
        take(tiny(0, 1), 128, 64),
        new(tiny(0, 1), 2_097_152, 16),
        full(tiny(1, 1), 16),
        full(tiny_depot(1), 16),
        take(tiny(1, 1), 192, 64),
        new(tiny(1, 1), 3_145_728, 16),
    ];
    assert!(rt; noted(book.history(), &events));
    Ok(())
}

// Neither small nor large has room: no 512 pages and no 300 are free.
#[test]
fn a_null_has_the_tickets_of_its_entries(rt: HostRuntime) -> Result<(), Fail> {
    let (mut book, rack, _other) = racks(&rt, rt.alloc())?;
    let ranged = ask(&rt, &rack, &mut book, 1, 2_000)?;
    let large = ask(&rt, &rack, &mut book, 1, 4_915_200)?;
    let (magazine, depot, pages) = (1, 2, 3);
    let right = Null::Ranged {
        magazine,
        depot,
        pages,
    };
    assert_eq!(rt; ranged.err(), Some(right));
    let right = Null::Large { cache: 4, pages: 5 };
    assert_eq!(rt; large.err(), Some(right));
    let (k, n, al) = (Place::Large { zone: 0 }, 300, 1);
    let events = [
        full(Place::Small { zone: 0, mag: 1 }, 2_048),
        full(Place::SmallDepot { zone: 0 }, 2_048),
        dry(0, 512, 512),
        Event::Full { k, n, al },
        dry(0, 300, 1),
    ];
    assert!(rt; noted(book.history(), &events));
    Ok(())
}

// Caller 0 asks one zone for `n` bytes, and hands the block to another. Answers the ticket with which that denies it, and
// the zone, the first address and the size of the lot that came back.
fn ask_and_deny<R: Wait>(
    rt: &R,
    owner: &Rack,
    other: &Rack,
    book: &mut PlainBook<Keeper>,
    n: u64,
) -> Result<Option<(u64, u32, u64, u64)>, AllocError>
    requires owner { CanServe (⟦<PlainBook<Keeper> as Book<Keeper>>⟧.account book.old) owner.now.profile owner.now.zone 0 }
    requires other { CanServe (⟦<PlainBook<Keeper> as Book<Keeper>>⟧.account book.old) other.now.profile other.now.zone 0 }
    requires caller { 0 < owner.now.profile.callers }
{
    of_hands();
    book.act_as(0);
    book.reserve(36)?;
    let Ok(lot) = owner.alloc(rt, book, n, 16) else {
        return Ok(None);
    };
    book.reserve(3)?;
    match other.free(rt, book, lot) {
        Ok(()) => Ok(None),
        Err(denied) => {
            let lot = denied.lot;
            Ok(Some((denied.ticket, lot.zone(), lot.first(), lot.size())))
        }
    }
}

#[test]
fn a_large_block_of_another_zone_is_denied(rt: HostRuntime) -> Result<(), Fail> {
    let (mut book, first, second) = racks(&rt, rt.alloc())?;
    let denied = ask_and_deny(&rt, &second, &first, &mut book, 65_536)?;
    assert_eq!(rt; denied, Some((4, 1, 0, 65_536)));
    let (k, n, al) = (Place::Large { zone: 1 }, 4, 1);
    let events = [
        Event::Full { k, n, al },
        take(k, 0, 4),
        new(k, 0, 65_536),
        no(k, 0, 0, 65_536),
    ];
    assert!(rt; noted(book.history(), &events));
    Ok(())
}

// A block of `n` bytes. It is the book's caller's then, as those that were before.
fn lot_of<R: Wait>(rt: &R, rack: &Rack, book: &mut PlainBook<Keeper>, n: u64) -> Result<Lot, Fail>
    requires can { CanServe (⟦<PlainBook<Keeper> as Book<Keeper>>⟧.account book.old) rack.now.profile rack.now.zone 0 }
    ensures can { IfOk result (λ l. CanServe (⟦<PlainBook<Keeper> as Book<Keeper>>⟧.account book.new) rack.now.profile rack.now.zone 0) }
    ensures lot { IfOk result (λ l. IsFreeable (⟦<PlainBook<Keeper> as Book<Keeper>>⟧.account book.new) l) }
    ensures zone { IfOk result (λ l. l.zone ≡ rack.now.zone) }
    ensures others { IfOk result (λ l. (o : LotView) → IsFreeable (⟦<PlainBook<Keeper> as Book<Keeper>>⟧.account book.old) o → IsFreeable (⟦<PlainBook<Keeper> as Book<Keeper>>⟧.account book.new) o) }
{
    of_hands();
    book.reserve(36)?;
    match rack.alloc(rt, book, n, 16) {
        Ok(lot) => Ok(lot),
        Err(_null) => Err(Fail::new("there is room")),
    }
}

// Whether a block could be given `n` bytes in place. It is the caller's still.
fn resize<R: Wait>(
    rt: &R,
    rack: &Rack,
    book: &mut PlainBook<Keeper>,
    lot: &mut Lot,
    n: u64,
) -> Result<bool, Fail>
    requires can { CanServe (⟦<PlainBook<Keeper> as Book<Keeper>>⟧.account book.old) rack.now.profile rack.now.zone 0 }
    requires lot { IsFreeable (⟦<PlainBook<Keeper> as Book<Keeper>>⟧.account book.old) lot.old }
    requires zone { lot.old.zone ≡ rack.now.zone }
    requires some { 1 ≤ n }
    ensures can { IfOk result (λ r. CanServe (⟦<PlainBook<Keeper> as Book<Keeper>>⟧.account book.new) rack.now.profile rack.now.zone 0) }
    ensures lot { IfOk result (λ r. IsFreeable (⟦<PlainBook<Keeper> as Book<Keeper>>⟧.account book.new) lot.new) }
    ensures zone { IfOk result (λ r. lot.new.zone ≡ rack.now.zone) }
{
    of_hands();
    book.reserve(1)?;
    Ok(rack.resize(rt, book, lot, n))
}

// A block is live behind it, and 1,009 bytes are of another range.
#[test]
fn a_block_that_cannot_stay_has_to_move(rt: HostRuntime) -> Result<(), Fail> {
    let (mut book, rack, _other) = racks(&rt, rt.alloc())?;
    let mut lot = lot_of(&rt, &rack, &mut book, 48)?;
    let _behind = lot_of(&rt, &rack, &mut book, 16)?;
    let over_a_live_block = resize(&rt, &rack, &mut book, &mut lot, 49)?;
    let to_another_range = resize(&rt, &rack, &mut book, &mut lot, 1_009)?;
    assert!(rt; !over_a_live_block && !to_another_range);
    assert_eq!(rt; (lot.first(), lot.size()), (0, 48));
    let shrinks = resize(&rt, &rack, &mut book, &mut lot, 20)?;
    assert!(rt; shrinks);
    assert_eq!(rt; (lot.first(), lot.size()), (0, 32));
    let k = tiny(0, 0);
    let events = [
        full(k, 48),
        full(tiny_depot(0), 48),
        take(k, 0, 64),
        new(k, 0, 48),
        new(k, 48, 16),
        Event::Size {
            k,
            a: 0,
            s: 48,
            s2: 32,
        },
    ];
    assert!(rt; noted(book.history(), &events));
    Ok(())
}

fn is_send_and_sync<T: Send + Sync>() {}

#[test]
fn keepers_lots_and_racks_go_from_thread_to_thread() {
    is_send_and_sync::<Keeper>();
    is_send_and_sync::<Lot>();
    is_send_and_sync::<Rack>();
}
