//! Audits of lists of entries.
mod one_by_one;
mod rows;
mod script;
mod whys;

use mz_base::Profile;
use mz_events::{Entry, Place};
use mz_history::{State, Verdict, audit};
use std::alloc::{AllocError, Global};

const MAGAZINE: Place = Place::Tiny { zone: 0, mag: 0 };

const DEPOT: Place = Place::TinyDepot { zone: 0 };

const LARGE: Place = Place::Large { zone: 0 };

// The first region of the magazine.
const REGION: &str = "1 0 full 0t0 112 16;full 0td 112 16;take 0t0 0 64";

// A region and a block in it.
const BLOCK: &str = "1 0 full 0t0 112 16;full 0td 112 16;take 0t0 0 64;new 0t0 0 112 16";

// Seventeen large blocks come and go.
const CACHE: &str = "17 0 full 0l 3 1;take 0l 0 3;new 0l 0 49152 16\n17 0 end 0l 0 49152";

// Two full regions, and the blocks that end until one of the regions has to go.
const EXCESS: &str = "1 0 full 0t0 512 16;full 0td 512 16;take 0t0 0 64\n2048 0 new 0t0 0 512 16\n\
    1 0 full 0t0 512 16;full 0td 512 16;take 0t0 64 64\n2048 0 new 0t0 1048576 512 16\n\
    2047 0 end 0t0 0 512\n1026 0 end 0t0 1048576 512";

fn space(pages: u64) -> Profile {
    Profile {
        pages,
        callers: 1,
        magazines: 1,
        nano: 0,
        most_gen: 1_024,
        zones: 1,
    }
}

// An audit in a space whose numbers are within their limits.
fn audited(alloc: Global, entries: &[Entry], p: &Profile) -> Result<Verdict, AllocError> {
    if !p.ok() {
        return Ok(Verdict::Unlawful { ticket: 0, why: 0 });
    }
    audit(alloc, entries, p)
}

// The opening state of such a space.
fn opened(alloc: Global, p: &Profile) -> Result<State, AllocError> {
    if !p.ok() {
        return Err(AllocError);
    }
    State::open(alloc, p)
}
