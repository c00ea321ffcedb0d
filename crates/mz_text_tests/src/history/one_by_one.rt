//! Lists that are fed one entry at a time, lawful ones and others, and audited after each.
use crate::history::script::entries;
use crate::history::{DEPOT, LARGE, MAGAZINE, audited, opened};
use mz_base::Profile;
use mz_events::{Entry, Event, Place};
use mz_history::{State, StepFault, Verdict, step};
use std::alloc::{AllocError, Global};
use std::test::Fail;

// A small space with two zones, two callers and nano.
fn small_space() -> Profile {
    Profile {
        pages: 200,
        callers: 2,
        magazines: 2,
        nano: 2,
        most_gen: 1_024,
        zones: 2,
    }
}

// Entries of two callers in two zones: regions that go to a depot and come back, blocks that change their sizes, a zone that is
// shut and opened, a full cache, and nano.
const LAWFUL: &str =
    "1 0 open 1;full 0t0 112 16;full 0td 112 16;take 0t0 0 64\n60 0 new 0t0 0 112 16\n\
    1 0 full 0t0 112 1048576;full 0td 112 1048576;take 0t0 64 64;new 0t0 1048576 112 1048576\n\
    1 0 end 0t0 0 112;move 0 0t0 0td;end 0td 112 112\n1 1 no 0td 1 224 112\n\
    1 1 full 0t1 112 16;move 0 0td 0t1;new 0t1 0 112 16;size 0t1 0 112 64\n\
    1 1 new 0t1 64 128 16;size 0t1 0 64 48;size 0t1 0 48 64\n58 1 end 0t1 224 112\n1 1 end 0t1 64 128\n\
    1 1 full 0t1 112 1048576;full 0td 112 1048576;take 0t1 128 64;new 0t1 2097152 112 1048576\n\
    1 1 end 0t1 0 64;move 0 0t1 0td;back 0td 0 64\n1 1 full 1t0 112 16;full 1td 112 16;take 1t0 0 64;new 1t0 0 112 16\n\
    1 0 no 1t0 0 0 112\n1 1 end 1t0 0 112\n1 0 shut 1;back 1t0 0 64\n\
    17 01 full 0l 3 1;take 0l 0 3;new 0l 0 49152 16\n17 10 end 0l 0 49152\n1 0 back 0l 0 3;new 0l 49152 49152 16\n\
    1 1 dry 0 200 64\n1 0 back 0l 6 3;open 1\n10 01 new n 3244032 112 16\n1 0 no n 1 3244032 112\n6 10 end n 3244032 112";

// Events that were drawn among those that may be said of such a state, lawful or not.
const DRAWN: &str =
    "1 0 back 0l 9 3;end 0t0 1048576 112\n1 1 size n 3244928 112 128;full 0t0 112 16;full 1t1 5 16\n\
    1 0 dry 1 64 64;no 0td 0 2097152 112;back n 198 2\n1 1 take n 0 64\n1 0 no 0td 1 98304 112\n1 1 open 1\n1 0 open 1\n\
    1 1 back 0l 12 3\n1 0 new 0l 1048576 81920 16;end 0l 49152 49152;no 0l 1 0 112;no 0l 0 2097264 112;open 0\n\
    1 1 size n 3244704 112 128\n\
    1 0 back 0l 33 3;new n 3245152 81920 16;new 0l 2097264 49152 16;size 0t1 2097152 112 64;full 0td 3 1048576\n\
    1 1 open 1\n1 0 new 1l 2097216 112 16;full 1td 112 16\n1 1 no 1t0 0 589824 112;back 0t1 128 64;new 0l 3244928 112 16\n\
    1 0 new 0td 0 112 16;back 0l 21 3;new 0l 3245152 112 16\n1 1 new n 2097152 49152 1048576\n1 0 full 0t0 5 16\n\
    1 1 end n 3244816 112;full 0t1 112 16;full 0l 5 16\n1 0 dry 1 64 64\n\
    1 1 full 0t0 112 16;take 0t1 3 64;back 0t0 64 64;no 0td 0 3245152 112\n\
    1 0 full 0t0 5 16;back 0l 24 3;back 0t1 128 64\n1 1 open 0\n1 0 no 1l 0 3244816 112;shut 1\n1 1 back 0l 48 3\n\
    1 0 new 0l 1048576 112 1048576\n1 1 new 1l 737280 112 1048576;new n 3244032 81920 16\n1 0 full 1t1 5 1048576\n\
    1 1 new 0td 3244032 112 16;dry 1 200 64\n\
    1 0 new 0t0 3244816 81920 1048576;full 0td 112 16;end n 3245040 112;new 0l 3245040 112 1048576\n1 1 take n 64 64\n\
    1 0 new 1td 2097216 112 1048576;new 0td 3245040 49152 1048576\n1 1 new 0l 2097152 112 16\n1 0 dry 0 200 64\n\
    1 1 take 1t1 64 3;take 0t0 64 5\n1 0 end 0t1 2097152 64\n1 1 no 0td 1 3244032 112;back 0l 9 3;size n 3244704 112 128\n\
    1 0 full 0t1 5 16\n1 1 open 1\n1 0 open 1;full 1l 3 16\n1 1 new 0td 3245040 112 16;new 1t1 3245040 112 16;shut 0\n\
    1 0 new n 3245040 49152 16\n1 1 new 1td 3245040 112 1048576\n1 0 no 0t1 0 3245040 112\n\
    1 1 take 1t0 64 3;no 0td 1 3244032 112;new 1t1 3244032 81920 1048576;back 0l 42 3\n\
    1 0 size n 3244928 112 64;back 0l 36 3;full n 112 16;take n 64 3\n1 1 full 1l 112 16\n1 0 dry 0 64 64\n\
    1 1 new 0l 3244816 112 1048576\n1 0 new 0l 1048576 81920 16\n1 1 full 0l 3 16\n\
    1 0 new 0t1 2097152 112 16;new 0t0 294912 112 1048576;new 0l 3245040 112 16\n1 1 new 1td 3244816 112 1048576\n\
    1 0 new 1t0 2097264 112 16;full 1t1 112 1048576\n1 1 end n 3244704 112\n1 0 new 0l 3245040 49152 16;full 0l 5 16\n\
    1 1 back 0l 12 3;take 1l 64 64;new 1t0 2097264 81920 1048576\n1 0 full 0td 112 16;take 1td 3 5\n\
    1 1 new 0l 688128 49152 16;end n 3244928 112\n1 0 back 0t1 128 64\n\
    1 1 no 0t1 0 3244032 112;no n 0 2097264 112;full 0t0 112 1048576\n\
    1 0 no 1t0 1 2097152 112;open 1;end 0t1 2097152 112;full 0t0 112 16;new 0t0 0 49152 1048576;full 0td 5 16;back 0l 39 3;new 0t0 0 81920 16;back 0l 30 3;take 0td 64 5;no 1l 1 1048576 112;back 0l 18 3;back 0l 24 3;open 1\n\
    1 1 open 1;open 1;full 0t1 112 1048576\n1 0 open 1\n1 1 back 0l 15 3\n\
    1 0 full 0l 112 1048576;no 1l 1 0 112;no 1l 0 0 112\n1 1 take n 64 5\n1 0 back 0t0 64 64\n\
    1 1 new 0l 2097152 49152 16;full n 112 16;back 0l 39 3\n1 0 full 1l 3 1048576;back 0l 24 3\n1 1 shut 0\n\
    1 0 take 0l 64 3;full 1l 3 16\n1 1 full 1td 3 1048576\n1 0 open 1;new 0l 3244032 112 1048576\n1 1 dry 1 200 64\n\
    1 0 full 0t1 112 16;shut 1\n1 1 back 0l 30 3;dry 1 200 64;take 1t1 128 5\n\
    1 0 back 0l 48 3;no 0t0 0 393216 112;back 0l 48 3;dry 0 200 64\n1 1 full 1l 3 16;full 0l 3 1048576;open 0\n\
    1 0 open 1;new 0l 442368 112 1048576\n1 1 shut 1;new 1l 294912 49152 16\n1 0 open 1;full 0l 112 1048576;open 0\n\
    1 1 full 0t1 3 16\n1 0 back 0l 15 3\n1 1 new 0l 49152 49152 16\n\
    1 0 new 0td 0 112 1048576;shut 0;no 1t1 1 3244032 112;back 0l 18 3;full 1l 112 1048576\n1 1 open 1\n\
    1 0 new 0l 0 112 16\n1 1 open 1\n1 0 full 0t1 112 16;no 1l 0 0 112\n1 1 new 0l 0 81920 16\n\
    1 0 open 0;back 0t0 64 64;full 0t1 5 1048576;back 0l 45 3\n1 1 dry 1 64 64;dry 1 200 64\n1 0 open 1;back 0l 36 3\n\
    1 1 new 0td 3244032 112 16\n1 0 full 0l 112 16\n1 1 full 0t1 3 16;dry 0 64 64;dry 1 200 64\n\
    1 0 full 1t1 112 16;back 0l 18 3;new 0t1 491520 49152 1048576\n1 1 no 0td 0 1048576 112";

// How many entries of each have each why from 0 on, which is none; the last number is of those where an audit answers otherwise.
const LAWFUL_COUNTS: [u32; 16] = [243, 0, 0, 0, 0, 0, 0, 0, 0, 0, 0, 0, 0, 0, 0, 0];

const DRAWN_COUNTS: [u32; 16] = [46, 0, 14, 30, 4, 0, 3, 24, 0, 0, 25, 2, 19, 14, 19, 0];

const PLACES: [Place; 11] = [
    MAGAZINE,
    Place::Tiny { zone: 0, mag: 1 },
    Place::Tiny { zone: 1, mag: 0 },
    Place::Tiny { zone: 1, mag: 1 },
    DEPOT,
    Place::TinyDepot { zone: 1 },
    Place::Small { zone: 0, mag: 0 },
    LARGE,
    Place::Large { zone: 1 },
    Place::Nano,
    Place::Pages,
];

// Whether a state answers as another.
fn is_same(s: &State, t: &State) -> bool {
    for k in PLACES {
        if s.last_freed(k) != t.last_freed(k) || s.owes(k) != t.owes(k) {
            return false;
        }
    }
    s.runs() == t.runs()
        && s.live() == t.live()
        && s.cached(0) == t.cached(0)
        && s.cached(1) == t.cached(1)
        && s.is_open(0) == t.is_open(0)
        && s.is_open(1) == t.is_open(1)
        && s.entries() == t.entries()
        && s.max_size() == t.max_size()
}

// Whether a duty stands somewhere.
fn owes_some(s: &State) -> bool {
    for k in PLACES {
        if s.owes(k).is_some() {
            return true;
        }
    }
    false
}

// A state that is fed one entry at a time, another that is fed the lawful ones alone, and these.
#[derive(Drop)]
struct Steps {
    state: State,
    twin: State,
    list: Vec<Entry>,
}

impl Steps {
    // Feeds one more event: its why, 0 where it is lawful; 15 where an audit answers otherwise.
    fn feed(
        &mut self,
        alloc: Global,
        p: &Profile,
        caller: u32,
        event: Event,
    ) -> Result<u8, StepFault> {
        let ticket = self.state.entries();
        let e = Entry {
            ticket,
            caller,
            event,
        };
        let why = match step(&mut self.state, &e) {
            Ok(()) => 0,
            Err(StepFault::Unlawful { why }) => why,
            Err(StepFault::NoMemory) => return Err(StepFault::NoMemory),
        };
        if self.list.push(e).is_err() {
            return Err(StepFault::NoMemory);
        }
        let agrees = self.is_audited(alloc, p, ticket, why)?;
        if why == 0 {
            step(&mut self.twin, &e)?;
        } else {
            self.list.pop();
        }
        if agrees && is_same(&self.state, &self.twin) {
            Ok(why)
        } else {
            Ok(15)
        }
    }

    // Whether an audit of the entries answers what the last step did.
    fn is_audited(
        &self,
        alloc: Global,
        p: &Profile,
        ticket: u64,
        why: u8,
    ) -> Result<bool, AllocError> {
        match audited(alloc, &self.list, p)? {
            Verdict::Lawful(t) => Ok(why == 0 && is_same(&self.state, &t)),
            Verdict::Unlawful {
                ticket: bad,
                why: first,
            } => {
                let ended = why == 0 && bad == self.state.entries() && first == 2;
                let refused = why != 0 && bad == ticket && first == why;
                Ok((ended && owes_some(&self.state)) || refused)
            }
        }
    }
}

// The two states before any entry.
fn opening(alloc: Global, p: &Profile) -> Result<Steps, AllocError> {
    let state = opened(alloc, p)?;
    let twin = opened(alloc, p)?;
    let list = Vec::new(alloc);
    Ok(Steps { state, twin, list })
}

// Counts one more entry with this why.
fn count(counts: &mut [u32; 16], why: u8) {
    let why = why as usize;
    if why < 16 {
        counts[why] = counts[why].wrapping_add(1);
    }
}

// Feeds the events of these lines, and counts how many have each why.
fn feed_all(
    steps: &mut Steps,
    alloc: Global,
    p: &Profile,
    text: &str,
) -> Result<[u32; 16], StepFault> {
    let mut counts = [0; 16];
    let list = entries(alloc, text, "")?;
    for e in &list {
        let why = steps.feed(alloc, p, e.caller, e.event)?;
        count(&mut counts, why);
    }
    Ok(counts)
}

#[test]
fn steps_are_audits(rt: HostRuntime) -> Result<(), Fail> {
    let p = small_space();
    let mut steps = opening(rt.alloc(), &p)?;
    let lawful = feed_all(&mut steps, rt.alloc(), &p, LAWFUL)?;
    let drawn = feed_all(&mut steps, rt.alloc(), &p, DRAWN)?;
    assert!(rt; lawful == LAWFUL_COUNTS && drawn == DRAWN_COUNTS);
    Ok(())
}
