/// Where a page can be. Each page of the space is in just one place.
#[derive(Clone, Copy, Debug, PartialEq, Eq)]
pub enum Place {
    /// The free pages below nano's.
    Pages,
    /// A magazine of tiny regions.
    Tiny { zone: u32, mag: u32 },
    /// The tiny regions that a zone has put aside.
    TinyDepot { zone: u32 },
    /// A magazine of small regions.
    Small { zone: u32, mag: u32 },
    /// The small regions that a zone has put aside.
    SmallDepot { zone: u32 },
    /// The runs of large blocks of a zone, cached ones among them.
    Large { zone: u32 },
    /// The last pages of the space, which serve zone 0.
    Nano,
}
