use crate::place::Place;

/// What can happen in the space. Pages are counted in pages, addresses, sizes and alignments in
/// bytes; for large, `n` of `Full` counts pages.
#[derive(Clone, Copy, Debug, PartialEq, Eq)]
pub enum Event {
    /// A run goes from the free pages to `k`.
    Take { k: Place, first: u64, pages: u64 },
    /// A run goes from `k` to the free pages.
    Back { k: Place, first: u64, pages: u64 },
    /// The region at page `first` goes from a magazine to its depot, or the other way.
    Move { first: u64, from: Place, to: Place },
    /// A block becomes live, for a request at the alignment `al`.
    New { k: Place, a: u64, s: u64, al: u64 },
    /// A live block ends.
    End { k: Place, a: u64, s: u64 },
    /// A live block of `s` bytes has `s2` from now on.
    Size { k: Place, a: u64, s: u64, s2: u64 },
    /// `k` has no room for `n` bytes at the alignment `al`; in large, no cached run fits `n` pages.
    Full { k: Place, n: u64, al: u64 },
    /// There is no free run of so many pages at a multiple of `al` pages.
    Dry { zone: u32, pages: u64, al: u64 },
    /// A live block of `k` was taken for one of the zone, and isn't.
    No { k: Place, zone: u32, a: u64, s: u64 },
    /// A zone opens.
    Open { zone: u32 },
    /// A zone without live blocks closes.
    Shut { zone: u32 },
}
