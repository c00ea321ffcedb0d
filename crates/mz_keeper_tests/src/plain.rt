//! A keeper of regions as plain lists of numbers, and what it answers.
use std::alloc::{AllocError, Global};

/// Pairs of an address and a size in bytes, by address.
#[derive(Drop)]
pub struct Pairs(Vec<(u64, u64)>);

impl Pairs {
    fn add(&mut self, a: u64, size: u64) -> Result<(), AllocError> {
        let at = self.0.iter().take_while(|(b, _)| *b < a).count();
        if at <= self.0.len() {
            self.0.insert(at, (a, size))?;
        }
        Ok(())
    }

    fn remove(&mut self, a: u64) {
        self.0.retain(|(b, _)| *b != a);
    }

    fn size_at(&self, a: u64) -> u64 {
        for (b, size) in self.0.iter() {
            if *b == a {
                return *size;
            }
        }
        0
    }

    /// Whether a pair has all of the `n` bytes at `a`.
    fn covers(&self, a: u64, n: u64) -> bool {
        for (b, size) in self.0.iter() {
            if *b <= a && a.saturating_add(n) <= b.saturating_add(*size) {
                return true;
            }
        }
        false
    }

    /// Whether a pair has one of the `n` bytes at `a`.
    fn meets(&self, a: u64, n: u64) -> bool {
        for (b, size) in self.0.iter() {
            if *b < a.saturating_add(n) && a < b.saturating_add(*size) {
                return true;
            }
        }
        false
    }

    /// How many pairs begin among the `n` bytes at `a`, and their bytes.
    fn sums(&self, a: u64, n: u64) -> (u64, u64) {
        let mut count = 0u64;
        let mut bytes = 0u64;
        for (b, size) in self.0.iter() {
            if a <= *b && *b < a.saturating_add(n) {
                count = count.saturating_add(1);
                bytes = bytes.saturating_add(*size);
            }
        }
        (count, bytes)
    }

    /// The lowest multiple of `al` behind a pair, or at `a`, from which `n` bytes up to `end` are in no pair.
    fn front(&self, a: u64, end: u64, n: u64, al: u64) -> Option<u64> {
        let mut from = a;
        for (b, size) in self.0.iter() {
            if a <= *b && *b < end {
                let front = multiple(from, al);
                if front.saturating_add(n) <= *b {
                    return Some(front);
                }
                from = b.saturating_add(*size);
            }
        }
        let front = multiple(from, al);
        if front.saturating_add(n) <= end {
            Some(front)
        } else {
            None
        }
    }
}

/// The regions that are here, the live blocks of these and of others, and the last freed block.
#[derive(Drop)]
pub struct Plain {
    depot: bool,
    regions: Pairs,
    blocks: Pairs,
    freed: Option<(u64, u64)>,
}

impl Plain {
    pub fn new(alloc: Global, depot: bool) -> Plain {
        Plain {
            depot,
            regions: Pairs(Vec::new(alloc)),
            blocks: Pairs(Vec::new(alloc)),
            freed: None,
        }
    }

    /// Adds `n` bytes at a multiple of `al`: the last freed block where it is that, and else the front of the lowest
    /// idle run with room.
    pub fn alloc(&mut self, n: u64, al: u64) -> Result<Option<(u64, u64)>, AllocError> {
        let place = match self.freed {
            Some((a, size)) if size == n && a.checked_rem(al) == Some(0) => Some(a),
            _ => self.place(n, al),
        };
        let Some(a) = place else {
            return Ok(None);
        };
        self.add(a, n)?;
        Ok(Some((a, n)))
    }

    /// Adds the `n` bytes at `a`.
    pub fn alloc_at(&mut self, a: u64, n: u64) -> Result<Option<(u64, u64)>, AllocError> {
        if !self.is_idle(a, n) {
            return Ok(None);
        }
        self.add(a, n)?;
        Ok(Some((a, n)))
    }

    /// Takes the block out where it is live here, and answers how many bytes it had then, else 0.
    pub fn free(&mut self, a: u64, size: u64) -> u64 {
        if size == 0 || self.size_at(a) != size {
            return 0;
        }
        self.blocks.remove(a);
        self.freed = if self.depot { None } else { Some((a, size)) };
        size
    }

    /// Makes the block at `a` one of `n` bytes, and answers how many it has then.
    pub fn resize(&mut self, a: u64, n: u64) -> Result<u64, AllocError> {
        let had = self.size_at(a);
        self.blocks.remove(a);
        let has = if self.is_idle(a, n) { n } else { had };
        self.add(a, has)?;
        Ok(has)
    }

    pub fn adopt(&mut self, first: u64, len: u64) -> Result<(), AllocError> {
        self.regions.add(first, len)
    }

    /// How many live blocks the region has that was there.
    pub fn yield_region(&mut self, first: u64) -> Option<u64> {
        let len = self.regions.size_at(first);
        if len == 0 {
            return None;
        }
        self.regions.remove(first);
        self.forget(first, len);
        Some(self.blocks.sums(first, len).0)
    }

    pub fn regions(&self) -> u64 {
        self.regions.0.len() as u64
    }

    pub fn size_at(&self, a: u64) -> u64 {
        if self.has(a) {
            self.blocks.size_at(a)
        } else {
            0
        }
    }

    pub fn has(&self, a: u64) -> bool {
        self.regions.covers(a, 1)
    }

    /// How many blocks are live here, their bytes, and the bytes of all regions.
    pub fn sums(&self) -> (u64, u64, u64) {
        let mut count = 0u64;
        let mut live = 0u64;
        let mut all = 0u64;
        for (first, len) in self.regions.0.iter() {
            let (blocks, bytes) = self.blocks.sums(*first, *len);
            count = count.saturating_add(blocks);
            live = live.saturating_add(bytes);
            all = all.saturating_add(*len);
        }
        (count, live, all)
    }

    pub fn excess(&self) -> bool {
        let (_, live, all) = self.sums();
        let idle = all.saturating_sub(live);
        let twice = idle.saturating_mul(2).saturating_mul(self.regions());
        twice > all.saturating_mul(3) && live < all.saturating_sub(all / 4)
    }

    pub fn sparse(&self) -> Option<u64> {
        for (first, len) in self.regions.0.iter() {
            if self.blocks.sums(*first, *len).1.saturating_mul(4) < len.saturating_mul(3) {
                return Some(*first);
            }
        }
        None
    }

    pub fn empty(&self) -> Option<u64> {
        for (first, len) in self.regions.0.iter() {
            if self.blocks.sums(*first, *len).0 == 0 {
                return Some(*first);
            }
        }
        None
    }

    pub fn fits(&self, n: u64, al: u64) -> Option<u64> {
        for (first, len) in self.regions.0.iter() {
            let end = first.saturating_add(*len);
            if self.blocks.front(*first, end, n, al).is_some() {
                return Some(*first);
            }
        }
        None
    }

    // The front of the lowest idle run with room.
    fn place(&self, n: u64, al: u64) -> Option<u64> {
        let first = self.fits(n, al)?;
        let end = first.saturating_add(self.regions.size_at(first));
        self.blocks.front(first, end, n, al)
    }

    fn is_idle(&self, a: u64, n: u64) -> bool {
        self.regions.covers(a, n) && !self.blocks.meets(a, n)
    }

    fn add(&mut self, a: u64, n: u64) -> Result<(), AllocError> {
        self.forget(a, n);
        self.blocks.add(a, n)
    }

    // The last freed block is none where it meets these bytes.
    fn forget(&mut self, a: u64, n: u64) {
        if let Some((b, size)) = self.freed {
            if b < a.saturating_add(n) && a < b.saturating_add(size) {
                self.freed = None;
            }
        }
    }
}

fn multiple(a: u64, al: u64) -> u64 {
    a.checked_next_multiple_of(al).unwrap_or(u64::MAX)
}
