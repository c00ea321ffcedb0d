//! What the lists of a state are made of.
use mz_events::Place;

/// A run of a place, in pages.
#[derive(Clone, Copy, Debug, PartialEq, Eq)]
pub struct RunAt {
    pub k: Place,
    pub first: u64,
    pub pages: u64,
}

/// A live block of a place, in bytes.
#[derive(Clone, Copy, Debug, PartialEq, Eq)]
pub struct LiveAt {
    pub k: Place,
    pub a: u64,
    pub s: u64,
}
