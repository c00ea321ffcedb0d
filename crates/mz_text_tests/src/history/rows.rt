//! Lawful lists, and the states that they leave.
use crate::history::script::entries;
use crate::history::{BLOCK, CACHE, DEPOT, EXCESS, LARGE, MAGAZINE, audited, space};
use mz_events::{Event, Place};
use mz_history::{State, Verdict};
use std::alloc::{AllocError, Global};
use std::test::Fail;

const JOINING: &str =
    "1 0 full 0t0 1008 16;full 0td 1008 16;take 0t0 0 64\n1039 0 new 0t0 0 1008 16\n\
    1 0 new 0t0 1047312 336 16;new 0t0 1047648 336 16;new 0t0 1047984 336 16;new 0t0 1048320 256 16\n\
    1 0 end 0t0 1047312 336;end 0t0 1047984 336;end 0t0 1047648 336;new 0t0 1047312 1008 16";

const JOINED: &str =
    "1 0 take 0t0 0 64\n1039 0 new 0t0 0 1008 16\n1 0 new 0t0 1047312 1008 16;new 0t0 1048320 256 16";

const MOVED: &str = "1 0 move 0 0t0 0td\n1022 0 end 0t0 1573888 512";

const GIVEN_BACK: &str =
    "1 0 move 0 0t0 0td\n1022 0 end 0t0 1573888 512\n1 0 end 0td 1048064 512;back 0td 0 64";

const BEST_FIT: &str =
    "1 0 full 0l 5 1;take 0l 0 5;new 0l 0 81920 16;end 0l 0 81920;new 0l 0 81920 16\n\
    1 0 full 0l 6 1;take 0l 5 6;new 0l 81920 98304 16;end 0l 81920 98304\n\
    1 0 full 0l 3 1;take 0l 11 3;new 0l 180224 49152 16";

const DRY: &str = "1 0 full 0l 5 1;take 0l 0 5;new 0l 0 81920 16;end 0l 0 81920\n\
    1 0 full 0l 7 1;dry 0 7 1;back 0l 0 5;take 0l 0 7;new 0l 0 114688 16";

// A lawful list in so many pages, and what it leaves: the runs (`take`) and live blocks (`new`), the first pages of the cached runs,
// the block that the magazine freed last, the greatest sum of live bytes, and how many entries there are.
#[derive(Clone, Copy)]
struct Row {
    list: &'static str,
    more: &'static str,
    pages: u64,
    left: &'static str,
    cached: &'static [u64],
    freed: Option<(u64, u64)>,
    greatest: u64,
    entries: u64,
}

const ROWS: [Row; 8] = [
    // thin-path
    Row {
        list: BLOCK,
        more: "",
        pages: 64,
        left: "1 0 take 0t0 0 64;new 0t0 0 112 16",
        cached: &[],
        freed: None,
        greatest: 112,
        entries: 4,
    },
    // joining
    Row {
        list: JOINING,
        more: "",
        pages: 64,
        left: JOINED,
        cached: &[],
        freed: None,
        greatest: 1_048_576,
        entries: 1_050,
    },
    // exhaustion
    Row {
        list: JOINING,
        more: "1 0 full 0t0 16 16;full 0td 16 16;dry 0 64 64",
        pages: 64,
        left: JOINED,
        cached: &[],
        freed: None,
        greatest: 1_048_576,
        entries: 1_053,
    },
    // threshold
    Row {
        list: EXCESS,
        more: MOVED,
        pages: 128,
        left: "1 0 take 0td 0 64;take 0t0 64 64;new 0td 1048064 512 16",
        cached: &[],
        freed: Some((2_096_640, 512)),
        greatest: 2_097_152,
        entries: 8_198,
    },
    // empty-depot-region
    Row {
        list: EXCESS,
        more: GIVEN_BACK,
        pages: 128,
        left: "1 0 take 0t0 64 64",
        cached: &[],
        freed: Some((2_096_640, 512)),
        greatest: 2_097_152,
        entries: 8_200,
    },
    // large-cache
    Row {
        list: BEST_FIT,
        more: "",
        pages: 64,
        left: "1 0 take 0l 0 5;take 0l 5 6;take 0l 11 3;new 0l 0 81920 16;new 0l 180224 49152 16",
        cached: &[5],
        freed: None,
        greatest: 180_224,
        entries: 12,
    },
    // cache-limit
    Row {
        list: CACHE,
        more: "1 0 back 0l 0 3",
        pages: 64,
        left: "16 0 take 0l 3 3",
        cached: &[3, 6, 9, 12, 15, 18, 21, 24, 27, 30, 33, 36, 39, 42, 45, 48],
        freed: None,
        greatest: 835_584,
        entries: 69,
    },
    // dry-with-a-cache
    Row {
        list: DRY,
        more: "",
        pages: 8,
        left: "1 0 take 0l 0 7;new 0l 0 114688 16",
        cached: &[],
        freed: None,
        greatest: 114_688,
        entries: 9,
    },
];

// Whether no duty stands at the places of zone 0.
fn owes_nothing(s: &State) -> bool {
    s.owes(MAGAZINE).is_none()
        && s.owes(DEPOT).is_none()
        && s.owes(LARGE).is_none()
        && s.owes(Place::Pages).is_none()
}

// Whether a state keeps the runs and live blocks that these lines say.
fn keeps(alloc: Global, s: &State, left: &str) -> Result<bool, AllocError> {
    let mut kept = Vec::new(alloc);
    for run in s.runs() {
        kept.push(Event::Take {
            k: run.k,
            first: run.first,
            pages: run.pages,
        })?;
    }
    for block in s.live() {
        kept.push(Event::New {
            k: block.k,
            a: block.a,
            s: block.s,
            al: 16,
        })?;
    }
    let lines = entries(alloc, left, "")?;
    Ok(kept.len() == lines.len() && kept.iter().zip(lines.iter()).all(|(a, e)| *a == e.event))
}

// Whether the list of a row is lawful, and leaves what the row says.
fn holds(alloc: Global, row: &Row) -> Result<bool, AllocError> {
    let list = entries(alloc, row.list, row.more)?;
    match audited(alloc, &list, &space(row.pages))? {
        Verdict::Lawful(s) => Ok(
            keeps(alloc, &s, row.left)?
                && s.cached(0) == row.cached
                && s.last_freed(MAGAZINE) == row.freed
                && s.max_size() == row.greatest
                && s.entries() == row.entries
                && owes_nothing(&s),
        ),
        Verdict::Unlawful { .. } => Ok(false),
    }
}

#[test]
fn rows_leave_their_states(rt: HostRuntime) -> Result<(), Fail> {
    for row in &ROWS {
        let held = holds(rt.alloc(), row)?;
        assert!(rt; held);
    }
    Ok(())
}
