use bench::{Bench, Call};
use mz_ground::Space;
use mz_large::Large;
use std::test::Fail;

mod bench;

fn is_send_and_sync<T: Send + Sync + Drop>(_value: T) {}

/// A call and what it answers.
type Row = (Call, Option<(u64, u64)>);

/// How many rows hold in turn, up to the first that doesn't.
fn rows_that_hold(bench: &mut Bench, rows: &[Row]) -> u64 {
    let mut held = 0u64;
    for (call, answer) in rows {
        if bench.call(*call) != *answer {
            return held;
        }
        held = held.saturating_add(1);
    }
    held
}

#[test]
fn the_best_fit_serves_and_of_equals_the_one_freed_first(rt: HostRuntime) -> Result<(), Fail> {
    let space = Space::new(rt.alloc(), 64)?;
    let mut bench = Bench::of_runs(rt.alloc(), space, &[6, 4, 9, 4])?;
    let rows = [
        (Call::Count, Some((4, 0))),
        (Call::SizeAt(98_304), Some((98_304, 65_536))),
        (Call::SizeAt(98_305), Some((98_305, 0))),
        (Call::RunOf(5), Some((0, 6))),
        (Call::RunOf(9), Some((6, 4))),
        (Call::RunOf(23), None),
        (Call::Free, None),
        (Call::Free, None),
        (Call::Free, None),
        (Call::Free, None),
        (Call::Count, Some((0, 0))),
        (Call::RunOf(5), Some((0, 6))),
        (Call::RunOf(9), Some((6, 4))),
        (Call::RunOf(23), None),
        // Cached are (19, 4), (10, 9), (6, 4) and (0, 6), in this order.
        (Call::Reuse(10), None),
        (Call::Reuse(3), Some((19, 4))),
        (Call::Reuse(2), None),
        (Call::Reuse(3), Some((6, 4))),
        (Call::Reuse(5), Some((0, 6))),
        (Call::Reuse(4), None),
        (Call::Count, Some((3, 0))),
        (Call::SizeAt(0), Some((0, 98_304))),
        (Call::TakeOut(11), None),
        (Call::TakeOut(10), Some((10, 9))),
        (Call::RunOf(12), None),
        (Call::RunOf(20), Some((19, 4))),
    ];
    assert_eq!(rt; rows_that_hold(&mut bench, &rows), 26);
    Ok(())
}

#[test]
fn the_seventeenth_freed_run_pushes_out_the_first(rt: HostRuntime) -> Result<(), Fail> {
    let space = Space::new(rt.alloc(), 64)?;
    let mut bench = Bench::of_runs(rt.alloc(), space, &[3; 18])?;
    for left in 0..16 {
        let rows = [(Call::Free, None), (Call::Count, Some((17 - left, 0)))];
        assert_eq!(rt; rows_that_hold(&mut bench, &rows), 2);
    }
    let rows = [
        (Call::Free, Some((51, 3))),
        (Call::Free, Some((48, 3))),
        (Call::Count, Some((0, 0))),
    ];
    assert_eq!(rt; rows_that_hold(&mut bench, &rows), 3);
    for i in 0..16 {
        assert_eq!(rt; bench.call(Call::Flush), Some((45 - 3 * i, 3)));
    }
    assert_eq!(rt; bench.call(Call::Flush), None);
    Ok(())
}

#[test]
fn only_whole_blocks_are_freed(rt: HostRuntime) -> Result<(), Fail> {
    let space = Space::new(rt.alloc(), 4)?;
    let mut large = Large::make(rt.alloc(), 1)?;
    if space.len() >= 16_384 && space.len() % 16_384 == 0 {
        large.enter(&space);
    }
    let at = 16_384.min(space.len());
    let (front, back) = space.split(at);
    let Err(back) = large.free(back) else {
        return Err(Fail::new("a part of a block was freed"));
    };
    let Ok(whole) = front.join(back) else {
        return Err(Fail::new("the parts are of one space"));
    };
    assert!(rt; large.free(whole).is_ok());
    is_send_and_sync(large);
    Ok(())
}
