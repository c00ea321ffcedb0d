use mz_ground::Space;
use mz_pages::Pages;
use std::alloc::{AllocError, Global};
use std::test::Fail;

fn is_send_and_sync<T: Send + Sync + Drop>(_value: T) {}

// The pages of a space of `n` from page `first` on.
fn pages_from(alloc: Global, n: u64, first: u64) -> Result<Pages, AllocError> {
    let span = Space::new(alloc, n)?;
    let at = span.len().min(first.saturating_mul(16_384));
    let (_front, span) = span.split(at - at % 16_384);
    if span.first() % 16_384 != 0 || span.len() % 16_384 != 0 {
        return Err(AllocError);
    }
    Pages::make(alloc, span)
}

// The page where the run begins that `take` lends.
fn taken(pages: &mut Pages, w: u64, al: u64) -> Option<u64> {
    if w == 0 || al == 0 {
        return None;
    }
    let run = pages.take(w, al)?;
    Some(run.first() / 16_384)
}

#[test]
fn take_answers_the_lowest_run(rt: HostRuntime) -> Result<(), Fail> {
    // The pages of the space, the page where the span begins, how many pages are taken first, how
    // many are taken then and at which alignment, the page where that run begins, and the pages
    // that are free in the end.
    let rows: [(u64, u64, u64, u64, u64, Option<u64>, u64); 19] = [
        (0, 0, 0, 1, 1, None, 0),
        (1, 0, 0, 1, 1, Some(0), 0),
        (1, 0, 0, 2, 1, None, 1),
        (1, 0, 1, 1, 1, None, 0),
        (63, 0, 0, 64, 1, None, 63),
        (64, 0, 0, 64, 64, Some(0), 0),
        (64, 0, 1, 63, 1, Some(1), 0),
        (64, 0, 1, 1, 64, None, 63),
        (65, 0, 1, 1, 64, Some(64), 63),
        (65, 0, 64, 1, 1, Some(64), 0),
        (65, 0, 0, u64::MAX, u64::MAX, None, 65),
        (130, 1, 0, 64, 64, Some(64), 65),
        (130, 1, 0, 66, 64, Some(64), 63),
        (130, 1, 0, 67, 64, None, 129),
        (200, 70, 0, 64, 64, Some(128), 66),
        (200, 70, 0, 64, 1, Some(70), 66),
        (1_100, 3, 1, 588, 512, Some(512), 508),
        (1_100, 3, 1, 589, 512, None, 1_096),
        (16_384, 0, 1, 512, 512, Some(512), 15_871),
    ];
    for (n, first, before, w, al, page, free) in rows {
        let mut pages = pages_from(rt.alloc(), n, first)?;
        let all = pages.free_pages();
        let _before = taken(&mut pages, before, 1);
        let run = taken(&mut pages, w, al);
        let got = (all, run, pages.free_pages());
        assert_eq!(rt; got, (n.saturating_sub(first), page, free));
    }
    Ok(())
}

#[test]
fn a_span_goes_back_whole_and_keeps_its_bytes(rt: HostRuntime) -> Result<(), Fail> {
    let mut pages = pages_from(rt.alloc(), 3, 0)?;
    let Some(mut two) = pages.take(2, 1) else {
        return Err(Fail::new("three pages are free"));
    };
    two.bytes_mut().fill(7);
    let Err(mut pages) = pages.into_span() else {
        return Err(Fail::new("two pages are out"));
    };
    pages.back(two);
    let Some(two) = pages.take(2, 1) else {
        return Err(Fail::new("they are free again"));
    };
    assert_eq!(rt; (two.first(), two.len()), (0, 32_768));
    assert!(rt; two.bytes().iter().all(|byte| *byte == 7));
    pages.back(two);
    let Ok(span) = pages.into_span() else {
        return Err(Fail::new("all pages came back"));
    };
    assert_eq!(rt; (span.first(), span.len()), (0, 49_152));
    is_send_and_sync(pages_from(rt.alloc(), 1, 0)?);
    Ok(())
}
