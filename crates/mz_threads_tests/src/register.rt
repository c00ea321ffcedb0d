//! What one client does at the desks of two passes, by turns and in threads.
ghost use Rattle.std.specs.Prelude.{◌≡◌, ◌<◌, ◌≤◌, [], ◌∷◌, IfOk};
ghost use Rattle.mz_register.specs.Accounts.{pass_account};
ghost use Rattle.mz_threads_tests.specs.Toys.{MayBeFull, WasFull, WereFull, HasLit, BelongsTo, SitsAt, profile_of, IsIn, AreReady};

use crate::toy::{Toy, book_of_toys};
use client::{note_full, note_full_often, settle_first, take_light, take_light_often};
use mz_events::Entry;
use mz_register::{Book, Pass, PlainBook, Register, Taken};
use std::alloc::{AllocError, Global};
use std::process::Abort;
use std::sync::Wait;
use std::test::Fail;
use std::thread;
use std::thread::Threads;

mod client;

// A register of toys, and its two passes, each with room for so many entries.
fn opened(alloc: Global, room: u64) -> Result<(Register<Toy>, Pass<Toy>, Pass<Toy>), AllocError>
    ensures { IfOk result (λ r. AreReady room r.0 r.1 r.2) }
{
    let Ok((register, mut passes)) = Register::open(alloc, book_of_toys(alloc)?) else {
        return Err(AllocError);
    };
    let Some(mut second) = passes.pop() else {
        unreachable!()
    };
    let Some(mut first) = passes.pop() else {
        unreachable!()
    };
    first.reserve(room)?;
    second.reserve(room)?;
    Ok((register, first, second))
}

fn both(alloc: Global, first: Pass<Toy>, second: Pass<Toy>) -> Result<Vec<Pass<Toy>>, AllocError>
    ensures { IfOk result (λ v. v.items ≡ first ∷ second ∷ []) }
{
    Ok(vec![in alloc; first, second]?)
}

fn note_at_desk<R: Wait>(rt: &R, register: &Register<Toy>, pass: &mut Pass<Toy>) -> u64
    requires of { BelongsTo register.now pass.old }
    requires can { MayBeFull (pass_account pass.old) 1 }
    ensures { WasFull (pass_account pass.old) result (pass_account pass.new) }
{
    let mut desk = register.desk(pass);
    note_full(rt, &mut desk)
}

fn note_often<R: Wait>(rt: &R, register: &Register<Toy>, pass: Pass<Toy>) -> Pass<Toy>
    requires of { BelongsTo register.now pass }
    requires can { MayBeFull (pass_account pass) 1000 }
    ensures { WereFull (pass_account pass) 1000 (pass_account result) }
{
    let mut pass = pass;
    let mut desk = register.desk(&mut pass);
    note_full_often(rt, &mut desk);
    drop(desk);
    pass
}

// Whether tickets are 0 to 1999, and each of the callers 0 and 1 has 1,000.
fn are_all(history: &[Entry]) -> bool {
    let in_order = history
        .iter()
        .enumerate()
        .all(|(i, e)| e.ticket == i as u64 && e.caller < 2);
    let first = history.iter().filter(|e| e.caller == 0).count();
    in_order && history.len() == 2000 && first == 1000
}

fn note_both<R: Threads + Wait + Sync>(
    rt: &R,
    register: &Register<Toy>,
    first: Pass<Toy>,
    second: Pass<Toy>,
) -> (Pass<Toy>, Pass<Toy>)
    requires first { SitsAt register.now 0 first × MayBeFull (pass_account first) 1000 }
    requires second { SitsAt register.now 1 second × MayBeFull (pass_account second) 1000 }
    ensures sit { SitsAt register.now 0 result.0 × SitsAt register.now 1 result.1 }
    ensures noted { WereFull (pass_account first) 1000 (pass_account result.0) × WereFull (pass_account second) 1000 (pass_account result.1) }
{
    thread::join(
        rt,
        move || -> Pass<Toy>
            requires sits { SitsAt register.now 0 first }
            requires can { MayBeFull (pass_account first) 1000 }
            ensures sits { SitsAt register.entry.now 0 result }
            ensures noted { WereFull (pass_account first) 1000 (pass_account result) }
        { note_often(rt, register, first) },
        move || -> Pass<Toy>
            requires sits { SitsAt register.now 1 second }
            requires can { MayBeFull (pass_account second) 1000 }
            ensures sits { SitsAt register.entry.now 1 result }
            ensures noted { WereFull (pass_account second) 1000 (pass_account result) }
        { note_often(rt, register, second) },
    )
}

fn hand_both(
    alloc: Global,
    register: Register<Toy>,
    first: Pass<Toy>,
    second: Pass<Toy>,
) -> Result<PlainBook<Toy>, Fail>
    requires callers { (profile_of register).callers ≡ 2 }
    requires first { SitsAt register 0 first }
    requires second { SitsAt register 1 second }
    ensures { IfOk result (λ b. IsIn register (⟦<PlainBook<Toy> as Book<Toy>>⟧.account b)) }
{
    let Ok(book) = register.hand_in(alloc, both(alloc, first, second)?) else {
        return Err(Fail::from(AllocError));
    };
    Ok(book)
}

fn note_in_threads<R: Threads + Wait + Abort + Sync>(rt: &R, alloc: Global) -> Result<(), Fail> {
    let (register, first, second) = opened(alloc, 1000)?;
    let (first, second) = note_both(rt, &register, first, second);
    let book = hand_both(alloc, register, first, second)?;
    assert!(rt; are_all(book.history()));
    Ok(())
}

#[test]
fn two_threads_note_under_one_keeper(rt: HostRuntime) -> Result<(), Fail> {
    note_in_threads(&rt, rt.alloc())
}

fn light_often(register: &Register<Toy>, pass: Pass<Toy>, j: u64) -> (Pass<Toy>, Option<u64>)
    requires of { BelongsTo register.now pass }
    requires nano { 1 ≤ (profile_of register.now).nano }
    requires dark { (pass_account pass).lights ≡ [] }
    requires slot { j < 1024 }
    ensures { HasLit (pass_account pass) result.1 (pass_account result.0) }
{
    let mut pass = pass;
    let mut desk = register.desk(&mut pass);
    let taken = take_light_often(&mut desk, j);
    drop(desk);
    (pass, taken)
}

fn light_both<R: Threads>(
    rt: &R,
    register: &Register<Toy>,
    first: Pass<Toy>,
    second: Pass<Toy>,
) -> ((Pass<Toy>, Option<u64>), (Pass<Toy>, Option<u64>))
    requires nano { 1 ≤ (profile_of register.now).nano }
    requires first { SitsAt register.now 0 first }
    requires second { SitsAt register.now 1 second }
    ensures sit { SitsAt register.now 0 result.0.0 × SitsAt register.now 1 result.1.0 }
    ensures lit { HasLit (pass_account first) result.0.1 (pass_account result.0.0) × HasLit (pass_account second) result.1.1 (pass_account result.1.0) }
{
    thread::join(
        rt,
        move || -> (Pass<Toy>, Option<u64>)
            requires sits { SitsAt register.now 0 first }
            requires nano { 1 ≤ (profile_of register.now).nano }
            ensures sits { SitsAt register.entry.now 0 result.0 }
            ensures lit { HasLit (pass_account first) result.1 (pass_account result.0) }
        { light_often(register, first, 0) },
        move || -> (Pass<Toy>, Option<u64>)
            requires sits { SitsAt register.now 1 second }
            requires nano { 1 ≤ (profile_of register.now).nano }
            ensures sits { SitsAt register.entry.now 1 result.0 }
            ensures lit { HasLit (pass_account second) result.1 (pass_account result.0) }
        { light_often(register, second, 1) },
    )
}

fn light_in_threads<R: Threads + Abort>(rt: &R, alloc: Global) -> Result<(), Fail> {
    let (register, first, second) = opened(alloc, 0)?;
    let ((first, of_first), (second, of_second)) = light_both(rt, &register, first, second);
    assert_eq!(rt; (of_first, of_second), (Some(1000), Some(1000)));
    let mut book = hand_both(alloc, register, first, second)?;
    assert_eq!(rt; book.history().len(), 0);
    assert_eq!(rt; take_light_often(&mut book, 0), Some(1000));
    assert_eq!(rt; take_light_often(&mut book, 1), Some(1000));
    Ok(())
}

#[test]
fn two_threads_take_lights_of_one_block(rt: HostRuntime) -> Result<(), Fail> {
    light_in_threads(&rt, rt.alloc())
}

fn settle_and_light(register: &Register<Toy>, pass: &mut Pass<Toy>) -> bool
    requires of { BelongsTo register.now pass.old }
    requires nano { 1 ≤ (profile_of register.now).nano }
    requires dark { (pass_account pass.old).lights ≡ [] }
{
    let mut desk = register.desk(pass);
    settle_first(&mut desk) && take_light(&mut desk, 0)
}

#[test]
fn two_keepers(rt: HostRuntime) -> Result<(), Fail> {
    let (register, mut first, mut second) = opened(rt.alloc(), 0)?;
    let Ok(held) = register.try_hold(&mut first, 0) else {
        return Err(Fail::new("keeper 0 wasn't free"));
    };
    let Err(taken) = register.try_hold(&mut second, 0) else {
        return Err(Fail::new("keeper 0 was free"));
    };
    let Ok(other) = register.try_hold(&mut second, 1) else {
        return Err(Fail::new("keeper 1 wasn't free"));
    };
    assert_eq!(rt;
        (held.number, taken, other.number),
        (0, Taken { word: 1 }, 1)
    );
    assert!(rt; settle_and_light(&register, &mut second));
    Ok(())
}

// Whether the first entry is of caller 1, and the second and last one of caller 0.
fn are_both(history: &[Entry]) -> bool {
    match history {
        [first, second] => (first.ticket, first.caller, second.ticket, second.caller)
            == (0, 1, 1, 0),
        _ => false,
    }
}

#[test]
fn a_client_of_any_book_notes_at_a_desk(rt: HostRuntime) -> Result<(), Fail> {
    let (register, mut first, mut second) = opened(rt.alloc(), 1)?;
    assert_eq!(rt; note_at_desk(&rt, &register, &mut second), 0);
    assert_eq!(rt; note_at_desk(&rt, &register, &mut first), 1);
    let book = hand_both(rt.alloc(), register, first, second)?;
    assert!(rt; are_both(book.history()));
    Ok(())
}

#[test]
fn a_client_of_any_book_notes_at_a_plain_book(rt: HostRuntime) -> Result<(), Fail> {
    let mut book = book_of_toys(rt.alloc())?;
    book.reserve(1000)?;
    note_full_often(&rt, &mut book);
    assert_eq!(rt; book.history().len(), 1000);
    Ok(())
}
