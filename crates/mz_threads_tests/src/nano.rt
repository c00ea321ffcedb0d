//! Slots popped and pushed, by one seat and by two in threads.
ghost use Rattle.std.specs.Prelude.{◌≡◌, IfOk};
ghost use Rattle.mz_nano.specs.Lists.{In};
ghost use Rattle.mz_nano.specs.Rule.{held};
ghost use Rattle.mz_nano.specs.SeatLists.{SitsAt, AreAllOf, space_of, first_of, seats_of, hand_of};

use mz_ground::Space;
use mz_nano::{Deal, Miss, Nano, NanoSeat, SlotSpan};
use std::alloc::{AllocError, Global};
use std::test::Fail;
use std::thread;

const TURNS: u32 = 100_000;

const TRIES: u32 = 10_000_000;

fn is_send<T: Send + Drop>(_value: T) {}

fn is_send_and_sync<T: Send + Sync + Drop>(_value: T) {}

fn is_at(s: &SlotSpan, block: u64, slot: u64, class: u64) -> bool {
    s.block() == block && s.slot() == slot && s.class() == class
}

// At the greatest generation, here 4, a block takes its slot back and gives none out: the next pop is of the block behind it.
#[test]
fn retirement(rt: HostRuntime) -> Result<(), Fail> {
    let span = Space::new(rt.alloc(), 2)?;
    let (nano, mut seats) = Nano::open(rt.alloc(), span, 4, 1)?;
    let Some(mut seat) = seats.pop() else {
        return Err(Fail::new("no seat"));
    };
    let Ok(s) = nano.pop(&mut seat, 1) else {
        return Err(Fail::new("the first pop"));
    };
    assert!(rt; is_at(&s, 0, 0, 1) && s.first() == 0 && s.bytes().len() == 16);
    let Ok(()) = nano.push(&mut seat, s) else {
        return Err(Fail::new("the first push"));
    };
    let Ok(s) = nano.pop(&mut seat, 1) else {
        return Err(Fail::new("the second pop"));
    };
    assert!(rt; is_at(&s, 0, 0, 1));
    let Ok(()) = nano.push(&mut seat, s) else {
        return Err(Fail::new("the second push"));
    };
    let Ok(s) = nano.pop(&mut seat, 1) else {
        return Err(Fail::new("the third pop"));
    };
    assert!(rt; is_at(&s, 1, 0, 1) && s.first() == 16384);
    is_send_and_sync(s);
    is_send(seat);
    is_send_and_sync(nano);
    Ok(())
}

#[test]
fn nano_exhausted(rt: HostRuntime) -> Result<(), Fail> {
    let span = Space::new(rt.alloc(), 2)?;
    let (nano, mut seats) = Nano::open(rt.alloc(), span, 1, 1)?;
    let Some(mut seat) = seats.pop() else {
        return Err(Fail::new("no seat"));
    };
    let Ok(s) = nano.pop(&mut seat, 1) else {
        return Err(Fail::new("the first pop"));
    };
    assert!(rt; is_at(&s, 0, 0, 1));
    let Ok(s) = nano.pop(&mut seat, 1) else {
        return Err(Fail::new("the second pop"));
    };
    assert!(rt; is_at(&s, 1, 0, 1));
    let Err(Miss::Exhausted) = nano.pop(&mut seat, 1) else {
        return Err(Fail::new("the third pop"));
    };
    assert_eq!(rt; (seat.tries(), seat.misses(), seat.missed()), (3, 1, 1));
    let Some(popped) = seat.popped() else {
        return Err(Fail::new("no slot was popped"));
    };
    assert_eq!(rt; (popped.block, popped.slot, popped.class), (1, 0, 1));
    assert_eq!(rt; seat.number(), 0);
    Ok(())
}

#[test]
fn slots_come_in_order(rt: HostRuntime) -> Result<(), Fail> {
    let span = Space::new(rt.alloc(), 1)?;
    let (nano, mut seats) = Nano::open(rt.alloc(), span, 1024, 1)?;
    let Some(mut seat) = seats.pop() else {
        return Err(Fail::new("no seat"));
    };
    let Ok(first) = nano.pop(&mut seat, 16) else {
        return Err(Fail::new("the first pop"));
    };
    let Ok(second) = nano.pop(&mut seat, 16) else {
        return Err(Fail::new("the second pop"));
    };
    let Ok(third) = nano.pop(&mut seat, 16) else {
        return Err(Fail::new("the third pop"));
    };
    assert!(rt; is_at(&first, 0, 0, 16) && first.first() == 0);
    assert!(rt; is_at(&second, 0, 1, 16) && second.first() == 256);
    assert!(rt; is_at(&third, 0, 2, 16) && third.first() == 512);
    Ok(())
}

#[test]
fn nano_dealt(rt: HostRuntime) -> Result<(), Fail> {
    let span = Space::new(rt.alloc(), 1)?;
    let (mut nano, mut seats) = Nano::open(rt.alloc(), span, 1024, 2)?;
    let Ok(mut s) = nano.pop(&mut seats[0], 16) else {
        return Err(Fail::new("the pop"));
    };
    assert!(rt; is_at(&s, 0, 0, 16));
    s.bytes_mut().fill(7);
    let moves = [Deal {
        block: s.block(),
        slot: s.slot(),
        from: 0,
        to: 1,
    }];
    nano.deal(rt.alloc(), &mut seats, moves.as_slice())?;
    let (nano, mut seats) = match nano.close(seats) {
        Ok(_) => return Err(Fail::new("a hand has a slot")),
        Err(both) => both,
    };
    assert!(rt; s.bytes().len() == 256 && s.bytes().iter().all(|x| *x == 7));
    let Ok(()) = nano.push(&mut seats[1], s) else {
        return Err(Fail::new("the push"));
    };
    let Ok(span) = nano.close(seats) else {
        return Err(Fail::new("every hand is empty"));
    };
    assert_eq!(rt; (span.first(), span.len()), (0, 16384));
    Ok(())
}

// Pushes until another seat no longer comes between. Whether it came to that.
fn put_back(nano: &Nano, seat: &mut NanoSeat, s: SlotSpan) -> bool
    requires one { SitsAt nano.now seat.old }
    requires mine { In (held s.block s.slot s.class) (hand_of seat.old) }
    requires place { (s.span.space ≡ space_of nano.now) × (s.base ≡ first_of nano.now) }
    ensures one { SitsAt nano.now seat.new }
{
    let mut slot = s;
    for _ in 0..TRIES {
        match nano.push(seat, slot) {
            Ok(()) => return true,
            Err(contended) => slot = contended.slot,
        }
    }
    false
}

// Pops, writes the thread's number, reads it back and pushes. Whether all that was read is its own and
// the slot went back. A miss is no fault.
fn turn(nano: &Nano, seat: &mut NanoSeat, number: u8) -> bool
    requires one { SitsAt nano.now seat.old }
    ensures one { SitsAt nano.now seat.new }
{
    let Ok(mut s) = nano.pop(seat, 1) else {
        return true;
    };
    s.bytes_mut().fill(number);
    let own = s.bytes().len() == 16 && s.bytes().iter().all(|x| *x == number);
    put_back(nano, seat, s) && own
}

fn take_turns(nano: &Nano, mut seat: NanoSeat, number: u8) -> (NanoSeat, bool)
    requires one { SitsAt nano.now seat }
    ensures one { SitsAt nano.now result.0 }
{
    let mut own = true;
    for _ in 0..TURNS {
        own &= turn(nano, &mut seat, number);
    }
    let served = seat.tries() == u64::from(TURNS) && seat.misses() < u64::from(TURNS);
    (seat, own && served)
}

// The two seats of a nano.
fn both_back(
    alloc: Global,
    nano: &Nano,
    first: NanoSeat,
    second: NanoSeat,
) -> Result<Vec<NanoSeat>, AllocError>
    requires count { seats_of nano.now ≡ 2 }
    requires one { SitsAt nano.now first }
    requires two { SitsAt nano.now second }
    ensures { IfOk result (λ v. AreAllOf nano.now v.items) }
{
    Ok(vec![in alloc; first, second]?)
}

// Each thread pops and pushes: it misses less often than it turns, says so where a slot didn't go back,
// and in the end every hand is empty.
#[test]
fn two_threads_write_their_own(rt: HostRuntime) -> Result<(), Fail> {
    let span = Space::new(rt.alloc(), 4)?;
    let (nano, mut seats) = Nano::open(rt.alloc(), span, 68719476735, 2)?;
    let Some(second) = seats.pop() else {
        return Err(Fail::new("no seat"));
    };
    let Some(first) = seats.pop() else {
        return Err(Fail::new("one seat"));
    };
    let shared = &nano;
    let (left, right) = thread::join(
        &rt,
        move || -> (NanoSeat, bool)
            requires { SitsAt shared.now first }
            ensures { SitsAt shared.entry.now result.0 }
        { take_turns(shared, first, 1) },
        move || -> (NanoSeat, bool)
            requires { SitsAt shared.now second }
            ensures { SitsAt shared.entry.now result.0 }
        { take_turns(shared, second, 2) },
    );
    let ((first, first_own), (second, second_own)) = (left, right);
    assert_eq!(rt; (first_own, second_own), (true, true));
    let seats = both_back(rt.alloc(), &nano, first, second)?;
    let Ok(span) = nano.close(seats) else {
        return Err(Fail::new("a hand has a slot"));
    };
    assert_eq!(rt; (span.first(), span.len()), (0, 65536));
    Ok(())
}
