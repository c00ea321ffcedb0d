ghost use Rattle.std.specs.Prelude.{◌↔◌, IsTrue};

/// The numbers that a space and its zones are made with.
#[derive(Clone, Copy, Debug, PartialEq, Eq)]
pub struct Profile {
    /// Pages of the space, nano's among them. Addresses start at 0.
    pub pages: u64,
    /// Callers, numbered from 0.
    pub callers: u32,
    /// Magazines for each range and zone.
    pub magazines: u32,
    /// The last pages of the space, which are nano's for good.
    pub nano: u64,
    /// The generation at which a nano block retires.
    pub most_gen: u64,
    /// The greatest number of open zones. Zone 0 is always open.
    pub zones: u32,
}

impl Profile {
    ghost use Rattle.mz_base.specs.Limits.{IsWithinLimits};

    /// Whether each number is within its limits, which is what every other call that takes a
    /// profile asks of it.
    pub fn ok(&self) -> bool
        ensures { IsTrue result ↔ IsWithinLimits self.now }
    {
        (1..=16_384).contains(&self.pages)
            && (1..=16).contains(&self.callers)
            && (1..=16).contains(&self.magazines)
            && self.nano <= 1_024
            && self.nano <= self.pages
            && (1..=68_719_476_735).contains(&self.most_gen)
            && (1..=4).contains(&self.zones)
    }
}
