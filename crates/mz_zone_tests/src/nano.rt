//! Two seats of one nano, and a slot that can't be a block.
ghost use Rattle.std.specs.Prelude.{◌≡◌, ◌<◌, ◌≤◌, Option, IfOk};
ghost use Rattle.mz_nano.specs.SeatLists.{SitsAt};
ghost use Rattle.mz_book.specs.Account.{HoldsNothing};
ghost use Rattle.mz_base.specs.declared.profile.Profile.{Profile as Limits};
ghost use Rattle.mz_zone.specs.Calling.{seen, Seated, with_seat, KeepsReferences};
ghost use Rattle.mz_zone_tests.specs.Tested.{IsReady, at_book};

use crate::setting::{end, full, new, noted, of_hands, profile, setting, take, tiny, tiny_depot};
use crate::steps::{Answer, Step, go_on};
use mz_book::{Book, PlainBook};
use mz_events::Place;
use mz_nano::{Nano, NanoSeat};
use mz_rack::Keeper;
use mz_zone::{At, Zone};
use std::alloc::AllocError;
use std::sync::Wait;
use std::test::Fail;

// A caller makes a block, and frees it if it is to. Answers the block's first address.
fn make_one<R: Wait>(
    rt: &R,
    zone: &Zone,
    at: &mut At<PlainBook<Keeper>>,
    frees: bool,
) -> Option<u64>
    requires { IsReady (seen ⟦<PlainBook<Keeper> as Book<Keeper>>⟧.account at.old) zone.now.profile 80 }
    ensures references { KeepsReferences at.old at.new }
    ensures ready { IsReady (seen ⟦<PlainBook<Keeper> as Book<Keeper>>⟧.account at.new) zone.now.profile 0 }
{
    of_hands();
    let Ok(b) = zone.malloc(rt, at, 60) else {
        return None;
    };
    let first = b.first();
    if frees {
        let Ok(()) = zone.free(rt, at, b) else {
            return None;
        };
    }
    Some(first)
}

// Ends two loans together. What is known behind each of them is what its lender knows then.
fn give_back<'a>(book: &'a mut PlainBook<Keeper>, seat: &'a mut NanoSeat)
    ensures book { book.new ≡ book.old }
    ensures seat { seat.new ≡ seat.old }
{
    let _ = book;
    let _ = seat;
}

// A caller makes a block with its seat, and frees it if it is to.
fn make_with<'a, R: Wait>(
    rt: &R,
    zone: &Zone,
    book: &'a mut PlainBook<Keeper>,
    nano: &'a Nano,
    seat: &'a mut NanoSeat,
    frees: bool,
) -> Option<u64>
    requires { IsReady (with_seat (⟦<PlainBook<Keeper> as Book<Keeper>>⟧.account book.old) nano.now seat.old) zone.now.profile 80 }
    ensures { IsReady (with_seat (⟦<PlainBook<Keeper> as Book<Keeper>>⟧.account book.new) nano.now seat.new) zone.now.profile 0 }
{
    let mut at = At {
        book,
        nano: Some((nano, seat)),
    };
    let first = make_one(rt, zone, &mut at, frees);
    let At { book, nano } = at;
    let Some((_nano, seat)) = nano else {
        unreachable!()
    };
    give_back(book, seat);
    first
}

// It is the caller's turn.
fn take_turn<R: Wait>(
    rt: &R,
    zone: &Zone,
    book: &mut PlainBook<Keeper>,
    nano: &Nano,
    seat: &mut NanoSeat,
    caller: u32,
    frees: bool,
) -> Result<Option<u64>, AllocError>
    requires caller { caller < zone.now.profile.callers }
    requires ready { IsReady (with_seat (⟦<PlainBook<Keeper> as Book<Keeper>>⟧.account book.old) nano.now seat.old) zone.now.profile 0 }
    ensures { IfOk result (λ first. IsReady (with_seat (⟦<PlainBook<Keeper> as Book<Keeper>>⟧.account book.new) nano.now seat.new) zone.now.profile 0) }
{
    book.act_as(caller);
    book.reserve(80)?;
    Ok(make_with(rt, zone, book, nano, seat, frees))
}

// Two callers take two turns each. The first frees its first block, and the second its second one.
fn take_turns<R: Wait>(
    rt: &R,
    zone: &Zone,
    book: &mut PlainBook<Keeper>,
    nano: &Nano,
    first: &mut NanoSeat,
    second: &mut NanoSeat,
) -> Result<[Option<u64>; 4], AllocError>
    requires callers { 2 ≤ zone.now.profile.callers }
    requires ready { IsReady (with_seat (⟦<PlainBook<Keeper> as Book<Keeper>>⟧.account book.old) nano.now first.old) zone.now.profile 0 }
    requires second { SitsAt nano.now second.old }
{
    let a = take_turn(rt, zone, book, nano, first, 0, true)?;
    let b = take_turn(rt, zone, book, nano, second, 1, false)?;
    let c = take_turn(rt, zone, book, nano, first, 0, false)?;
    let d = take_turn(rt, zone, book, nano, second, 1, true)?;
    Ok([a, b, c, d])
}

// Each seat goes on where the other one left nano.
#[test]
fn two_seats_in_turn(rt: HostRuntime) -> Result<(), Fail> {
    let (mut book, nano, mut first, mut second) = setting(&rt, rt.alloc())?;
    let p = profile();
    let zone = Zone::new(rt.alloc(), &p, 0)?;
    let came = take_turns(&rt, &zone, &mut book, &nano, &mut first, &mut second)?;
    let right = [4_194_304, 4_194_304, 4_194_368, 4_194_432];
    assert_eq!(rt; came, right.map(Some));
    assert_eq!(rt; (first.tries(), second.tries()), (2, 2));
    assert_eq!(rt; (first.misses(), second.misses()), (0, 0));
    let events = [
        new(Place::Nano, 4_194_304, 64),
        end(Place::Nano, 4_194_304, 64),
        new(Place::Nano, 4_194_304, 64),
        new(Place::Nano, 4_194_368, 64),
        new(Place::Nano, 4_194_432, 64),
        end(Place::Nano, 4_194_432, 64),
    ];
    assert!(rt; noted(book.history(), &events));
    let callers = [0, 0, 0, 1, 0, 1, 1];
    let are_so = book.history().iter().map(|e| e.caller).eq(callers);
    assert!(rt; are_so);
    Ok(())
}

// Another caller gives nano's first page the class 5. Calls can be made by caller 0 then, as they could be before.
fn settle_first(book: &mut PlainBook<Keeper>)
    requires pages { 1 ≤ (⟦<PlainBook<Keeper> as Book<Keeper>>⟧.account book.old).profile.nano }
    requires callers { 2 ≤ (⟦<PlainBook<Keeper> as Book<Keeper>>⟧.account book.old).profile.callers }
    requires nothing_held { HoldsNothing (⟦<PlainBook<Keeper> as Book<Keeper>>⟧.account book.old) }
    ensures { (nano : Option Seated) (p : Limits) → IsReady (at_book (⟦<PlainBook<Keeper> as Book<Keeper>>⟧.account book.old) nano) p 0 → IsReady (at_book (⟦<PlainBook<Keeper> as Book<Keeper>>⟧.account book.new) nano) p 0 }
{
    book.act_as(1);
    let _ = book.settle(0, 5);
    book.act_as(0);
}

// Nano's pages are 256 and 257. Another caller settled the first for class 5, and nano makes it one of class 4: its slot is
// popped and goes back, each time anew.
#[test]
fn a_slot_of_another_class_goes_back(rt: HostRuntime) -> Result<(), Fail> {
    let steps = [
        (0, Step::Make(60), Answer::Block(0, 64)),
        (0, Step::Make(60), Answer::Block(64, 64)),
        (0, Step::Make(80), Answer::Block(4_210_688, 80)),
        (0, Step::Realloc(64), Answer::Block(128, 64)),
    ];
    let k = tiny(0, 0);
    let events = [
        full(k, 64),
        full(tiny_depot(0), 64),
        take(k, 0, 64),
        new(k, 0, 64),
        new(k, 64, 64),
        new(Place::Nano, 4_210_688, 80),
        new(k, 128, 64),
        end(Place::Nano, 4_210_688, 80),
    ];
    let (mut book, nano, mut seat, _second) = setting(&rt, rt.alloc())?;
    settle_first(&mut book);
    let p = profile();
    let first = Zone::new(rt.alloc(), &p, 0)?;
    let second = Zone::new(rt.alloc(), &p, 1)?;
    let there = Some((&nano, &mut seat));
    let mut at = At {
        book: &mut book,
        nano: there,
    };
    let each = go_on(&rt, rt.alloc(), &first, &second, &mut at, &steps)?;
    assert!(rt; each);
    assert!(rt; noted(at.book.history(), &events));
    assert_eq!(rt; (seat.tries(), seat.misses()), (4, 0));
    Ok(())
}
