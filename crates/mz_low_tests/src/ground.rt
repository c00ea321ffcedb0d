//! Spans, parcels and grounds that are parted, joined, lent and handed to threads.
use crate::crossing::may_cross;
use client::{Keeper, put};
use mz_ground::{Estate, Ground, Space};
use std::sync::Arc;
use std::test::Fail;
use std::thread;

mod client;

#[test]
fn halves_are_written_and_joined(rt: HostRuntime) -> Result<(), Fail> {
    let whole = Space::new(rt.alloc(), 1)?;
    assert_eq!(rt; (whole.first(), whole.len()), (0, 16384));
    let (mut front, mut back) = whole.split(5);
    assert_eq!(rt; (front.first(), front.len()), (0, 5));
    assert_eq!(rt; (back.first(), back.len()), (5, 16379));
    front.bytes_mut().fill(b'a');
    back.bytes_mut().fill(b'b');
    let Ok(whole) = front.join(back) else {
        unreachable!();
    };
    assert_eq!(rt; whole.len(), 16384);
    assert_eq!(rt; &whole.bytes()[3..7], b"aabb".as_slice());
    Ok(())
}

#[test]
fn a_span_joins_only_what_follows_it(rt: HostRuntime) -> Result<(), Fail> {
    let (mut front, mut back) = Space::new(rt.alloc(), 1)?.split(16000);
    front.bytes_mut()[0] = 1;
    back.bytes_mut()[0] = 2;
    let Err((back, front)) = back.join(front) else {
        unreachable!();
    };
    assert_eq!(rt;
        (back.first(), back.len(), back.bytes()[0]),
        (16000, 384, 2)
    );
    assert_eq!(rt;
        (front.first(), front.len(), front.bytes()[0]),
        (0, 16000, 1)
    );
    Ok(())
}

#[test]
fn a_span_is_cut_and_grows_in_place(rt: HostRuntime) -> Result<(), Fail> {
    let mut front = Space::new(rt.alloc(), 1)?;
    front.bytes_mut()[100] = 7;
    let mut rest = front.cut_off(100);
    assert_eq!(rt; (front.len(), rest.first(), rest.bytes()[0]), (100, 100, 7));
    let none = rest.cut_off(16284);
    assert_eq!(rt;
        (none.first(), none.len(), none.is_empty()),
        (16384, 0, true)
    );
    rest.extend(none);
    let (front_again, rest) = front.apart(rest);
    front = front_again;
    front.extend(rest);
    assert_eq!(rt; (front.len(), front.bytes()[100]), (16384, 7));
    Ok(())
}

#[test]
fn parcels_keep_what_was_written(rt: HostRuntime) -> Result<(), Fail> {
    let (estate, mut front) = Estate::of(Space::new(rt.alloc(), 1)?);
    let back = front.cut_off(100);
    let mut low = estate.lay(front, 0, 100);
    let mut high = estate.lay(back, 100, 16284);
    assert_eq!(rt; (low.first(), low.bytes().len()), (0, 100));
    assert_eq!(rt; (high.first(), high.bytes().len()), (100, 16284));
    low.bytes_mut().fill(b'a');
    high.bytes_mut().fill(b'b');
    let mut front = low.into_parcel();
    front.extend(high.into_parcel());
    let whole = estate.into_span(front);
    assert_eq!(rt; (whole.first(), whole.len()), (0, 16384));
    assert_eq!(rt; &whole.bytes()[98..102], b"aabb".as_slice());
    let (estate, mut front) = Estate::of(whole);
    may_cross(front.cut_off(100));
    may_cross(estate.lay(front, 0, 100));
    may_cross(estate);
    Ok(())
}

#[test]
fn a_space_may_have_no_bytes(rt: HostRuntime) -> Result<(), Fail> {
    let none = Space::new(rt.alloc(), 0)?;
    assert_eq!(rt; (none.first(), none.len()), (0, 0));
    let (front, back) = none.split(0);
    let Ok(none) = front.join(back) else {
        unreachable!();
    };
    let mut ground: Ground<16> = Ground::of(none, Vec::new(rt.alloc()));
    let nothing = Space::new(rt.alloc(), 0)?;
    drop(nothing);
    let Ok((none, lent)) = ground.into_span() else {
        unreachable!();
    };
    assert_eq!(rt; (none.len(), lent.len()), (0, 0));
    ground = Ground::of(none, lent);
    drop(ground);
    assert!(rt; Space::new(rt.alloc(), 1 << 50).is_err());
    assert!(rt; Space::new(rt.alloc(), u64::MAX).is_err());
    Ok(())
}

#[test]
fn quanta_are_lent_and_come_back(rt: HostRuntime) -> Result<(), Fail> {
    let lent = vec![in rt.alloc(); false; 32]?;
    let mut ground: Ground<512> = Ground::of(Space::new(rt.alloc(), 1)?, lent);
    let mut three = ground.lend(0, 3);
    let mut one = ground.lend(5, 1);
    assert_eq!(rt; (three.first(), three.len()), (0, 1536));
    assert_eq!(rt; (one.first(), one.len()), (2560, 512));
    three.bytes_mut().fill(3);
    one.bytes_mut().fill(1);
    let Err(mut ground) = ground.into_span() else {
        return Err(Fail::new("quanta are lent"));
    };
    ground.give_back(three);
    ground.put_back(5, 1, one);
    let Ok((whole, lent)) = ground.into_span() else {
        return Err(Fail::new("no quantum is lent"));
    };
    assert_eq!(rt; (whole.first(), whole.len()), (0, 16384));
    assert_eq!(rt; (whole.bytes()[0], whole.bytes()[1535]), (3, 3));
    assert_eq!(rt; (whole.bytes()[2560], whole.bytes()[3071]), (1, 1));
    assert!(rt; !lent.as_slice().contains(&true));
    Ok(())
}

#[test]
fn a_keeper_allocates_and_frees(rt: HostRuntime) -> Result<(), Fail> {
    let lent = vec![in rt.alloc(); false; 1024]?;
    let used = lent.clone()?;
    let mut keeper: Keeper<16> = Keeper::of(Ground::of(Space::new(rt.alloc(), 1)?, lent), used);
    let Some(mut block) = keeper.alloc_at(10, 4) else {
        return Err(Fail::new("the quanta are idle"));
    };
    assert!(rt; keeper.alloc_at(13, 2).is_none());
    assert!(rt; keeper.alloc_at(1023, 2).is_none());
    assert!(rt; keeper.alloc_at(14, 2).is_some());
    put(&mut block, 0, 9);
    assert_eq!(rt; (block.first(), block.len()), (160, 64));
    keeper.free_at(10, 4, block);
    let Some(block) = keeper.alloc_at(10, 4) else {
        return Err(Fail::new("the quanta are idle again"));
    };
    assert_eq!(rt; (block.first(), block.bytes()[0]), (160, 9));
    Ok(())
}

#[test]
fn spans_cross_threads(rt: HostRuntime) -> Result<(), Fail> {
    let (mut front, mut back) = Space::new(rt.alloc(), 1)?.split(8192);
    front.bytes_mut().fill(1);
    back.bytes_mut().fill(5);
    let writer = thread::spawn(&rt, move || {
        front.bytes_mut().fill(2);
        front
    })?;
    let shared = Arc::new(rt.alloc(), back)?;
    let theirs = Arc::try_clone(&shared)?;
    let reader = thread::spawn(&rt, move || theirs.bytes().iter().all(|byte| *byte == 5))?;
    assert!(rt; shared.bytes().iter().all(|byte| *byte == 5));
    let (front, read) = (writer.join(&rt), reader.join(&rt));
    assert!(rt; read);
    assert!(rt; front.bytes().iter().all(|byte| *byte == 2));
    assert_eq!(rt; front.bytes().len(), 8192);
    may_cross(front);
    Ok(())
}

#[test]
fn a_ground_crosses_threads(rt: HostRuntime) -> Result<(), Fail> {
    let lent = vec![in rt.alloc(); false; 1]?;
    let mut ground: Ground<16384> = Ground::of(Space::new(rt.alloc(), 1)?, lent);
    let span = ground.lend(0, 1);
    let keeper = thread::spawn(&rt, move || ground)?;
    let ground = keeper.join(&rt);
    let Err(ground) = ground.into_span() else {
        return Err(Fail::new("the quantum is lent"));
    };
    may_cross(ground);
    drop(span);
    Ok(())
}
