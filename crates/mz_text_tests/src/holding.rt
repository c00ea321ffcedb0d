//! A magazine from its first run on.
use mz_events::{Event, Place};
use mz_holding::Holding;
use std::alloc::{AllocError, Global};
use std::test::Fail;

const MAGAZINE: Place = Place::Tiny { zone: 0, mag: 0 };

const DEPOT: Place = Place::TinyDepot { zone: 0 };

// The first byte of the run.
const A: u64 = 64 * 16_384;

// A magazine with a run, and a block there.
fn with_block(alloc: Global) -> Result<Holding, AllocError> {
    let mut tiny = Holding::new(alloc);
    tiny.add_run(alloc, 64, 64)?;
    if tiny.is_apart(MAGAZINE, A, 112, 16) {
        tiny.add_block(A, 112)?;
    }
    Ok(tiny)
}

#[test]
fn a_magazine_goes_through_its_events(rt: HostRuntime) -> Result<(), Fail> {
    let mut tiny = Holding::new(rt.alloc());
    assert!(rt; tiny.has_no_runs() && tiny.has_no_blocks());
    tiny.add_run(rt.alloc(), 64, 64)?;
    assert!(rt; tiny.has_run(64, 64) && !tiny.has_run(64, 63) && !tiny.has_run(65, 64));
    assert!(rt; tiny.is_placed(MAGAZINE, A, 112, 16) && !tiny.is_placed(MAGAZINE, A + 16, 112, 16));
    assert!(rt; tiny.is_apart(MAGAZINE, A, 112, 16));
    tiny.add_block(A, 112)?;
    assert!(rt; tiny.has_block(A, 112) && !tiny.has_block(A, 96));
    assert!(rt;
        !tiny.is_apart(MAGAZINE, A + 96, 32, 16) && tiny.is_apart(MAGAZINE, A + 112, 32, 16)
    );
    Ok(())
}

#[test]
fn a_block_changes_its_size_and_ends(rt: HostRuntime) -> Result<(), Fail> {
    let mut tiny = with_block(rt.alloc())?;
    tiny.learn_full(1_048_465);
    assert!(rt; tiny.has_any_room(1_048_464, 16) && !tiny.has_any_room(1_048_465, 16));
    assert!(rt; tiny.is_lowest_with_room(64, 16, 16) && !tiny.is_unused_run(64, 64));
    assert!(rt; tiny.has_block(A, 112) && tiny.is_resized_apart(MAGAZINE, A, 1_008));
    tiny.resize_block(A, 112, 1_008)?;
    assert!(rt; tiny.used() == 1_008 && tiny.has_block(A, 1_008));
    tiny.end_block(MAGAZINE, A, 1_008)?;
    assert!(rt; tiny.has_no_blocks() && tiny.is_unused_run(64, 64));
    Ok(())
}
