//! Blocks that come back: of a wrong size, of another zone, and where no place has room.
use crate::setting::{end, full, new, no, noted, profile, setting, take, tiny, tiny_depot};
use crate::steps::{Answer, Step, go_on};
use mz_events::{Event, Place};
use mz_zone::{At, Block, Zone};
use std::alloc::Global;
use std::sync::Wait;
use std::test::Fail;

// Does the steps with the seat of caller 0, and says whether each was answered so, and these events were noted.
fn makes<R: Wait>(
    rt: &R,
    alloc: Global,
    steps: &[(u32, Step, Answer)],
    events: &[Event],
) -> Result<bool, Fail> {
    let p = profile();
    let (mut book, nano, mut seat, _second) = setting(rt, alloc)?;
    let first = Zone::new(alloc, &p, 0)?;
    let second = Zone::new(alloc, &p, 1)?;
    let there = Some((&nano, &mut seat));
    let mut at = At {
        book: &mut book,
        nano: there,
    };
    let each = go_on(rt, alloc, &first, &second, &mut at, steps)?;
    Ok(each && noted(at.book.history(), events))
}

// Also where it has another size, or where no place has room.
#[test]
fn a_block_of_another_zone_comes_back(rt: HostRuntime) -> Result<(), Fail> {
    let steps = [
        (0, Step::Make(60), Answer::Block(4_194_304, 64)),
        (1, Step::Free, Answer::Refused(2)),
        (1, Step::FreeOfSize(65), Answer::Refused(2)),
        (1, Step::Realloc(1 << 40), Answer::Refused(2)),
        (0, Step::FreeOfSize(64), Answer::Freed),
        (1, Step::Make(60), Answer::Block(0, 64)),
        (0, Step::Free, Answer::Refused(2)),
        (0, Step::FreeOfSize(1_009), Answer::Refused(2)),
        (0, Step::Realloc(0), Answer::Refused(2)),
        (1, Step::Free, Answer::Freed),
    ];
    let other = tiny(1, 0);
    let events = [
        new(Place::Nano, 4_194_304, 64),
        no(Place::Nano, 1, 4_194_304, 64),
        no(Place::Nano, 1, 4_194_304, 64),
        no(Place::Nano, 1, 4_194_304, 64),
        end(Place::Nano, 4_194_304, 64),
        full(other, 64),
        full(tiny_depot(1), 64),
        take(other, 0, 64),
        new(other, 0, 64),
        no(other, 0, 0, 64),
        no(other, 0, 0, 64),
        no(other, 0, 0, 64),
        end(other, 0, 64),
    ];
    let made = makes(&rt, rt.alloc(), &steps, &events)?;
    assert!(rt; made);
    Ok(())
}

// The blocks before it ended, and those behind it are live.
#[test]
fn a_batch_stops_at_a_block_of_another_zone(rt: HostRuntime) -> Result<(), Fail> {
    let steps = [
        (0, Step::Make(60), Answer::Block(4_194_304, 64)),
        (1, Step::FreeAmong(16, 48), Answer::Refused(2)),
        (1, Step::Make(300), Answer::Block(64, 304)),
        (0, Step::FreeAmong(60, 300), Answer::Refused(2)),
        (0, Step::Make(60), Answer::Block(4_194_368, 64)),
    ];
    let (own, other) = (tiny(0, 0), tiny(1, 0));
    let events = [
        new(Place::Nano, 4_194_304, 64),
        full(other, 16),
        full(tiny_depot(1), 16),
        take(other, 0, 64),
        new(other, 0, 16),
        new(other, 16, 48),
        end(other, 0, 16),
        no(Place::Nano, 1, 4_194_304, 64),
        new(other, 64, 304),
        new(Place::Nano, 4_194_368, 64),
        full(own, 304),
        full(tiny_depot(0), 304),
        take(own, 64, 64),
        new(own, 1_048_576, 304),
        end(Place::Nano, 4_194_368, 64),
        no(other, 0, 64, 304),
        new(Place::Nano, 4_194_368, 64),
    ];
    let made = makes(&rt, rt.alloc(), &steps, &events)?;
    assert!(rt; made);
    Ok(())
}

// 2^40 bytes are 67,108,864 pages.
#[test]
fn a_block_that_is_refused_comes_back(rt: HostRuntime) -> Result<(), Fail> {
    let own = tiny(1, 0);
    let large = Place::Large { zone: 1 };
    let (pages, al) = (67_108_864, 1);
    let steps = [
        (1, Step::BatchOfNone(16), Answer::Blocks(0)),
        (1, Step::Make(8), Answer::Block(0, 16)),
        (1, Step::FreeOfSize(17), Answer::WrongSize(16)),
        (1, Step::Realloc(1 << 40), Answer::Refused(1)),
        (1, Step::FreeOfSize(8), Answer::Freed),
    ];
    let events = [
        full(own, 16),
        full(tiny_depot(1), 16),
        take(own, 0, 64),
        new(own, 0, 16),
        Event::Full {
            k: large,
            n: pages,
            al,
        },
        Event::Dry { zone: 1, pages, al },
        end(own, 0, 16),
    ];
    let made = makes(&rt, rt.alloc(), &steps, &events)?;
    assert!(rt; made);
    Ok(())
}

fn is_send_and_sync<T: Send + Sync>() {}

#[test]
fn blocks_and_zones_go_from_thread_to_thread() {
    is_send_and_sync::<Block>();
    is_send_and_sync::<Zone>();
}

// The space has 258 pages, 4,227,072 bytes.
#[test]
fn a_good_size_fits_the_space(rt: HostRuntime) -> Result<(), Fail> {
    let p = profile();
    let zone = Zone::new(rt.alloc(), &p, 1)?;
    assert_eq!(rt; zone.good_size(32_769), Some(49_152));
    assert_eq!(rt; zone.good_size(4_227_072), Some(4_227_072));
    assert_eq!(rt; zone.good_size(4_227_073), None);
    Ok(())
}
