//! A zone's requests.
ghost use Rattle.std.specs.Prelude.{◌≡◌, ◌<◌, ◌≤◌, IfOk};
ghost use Rattle.std.specs.Int.{IsPowerOfTwo};
ghost use Rattle.mz_base.specs.Limits.{IsWithinLimits, IsFrom};
ghost use Rattle.mz_base.specs.Codes.{limits_once};
ghost use Rattle.mz_rack.specs.Serving.{CanServe, Answers};
ghost use Rattle.mz_rack.specs.Freeing.{IsFreeable, Frees};
ghost use Rattle.mz_rack.specs.Resizing.{Resizes};

use crate::free::{deny, end_block};
use crate::home::find_home;
use crate::keeper::Keeper;
use crate::large::serve_large;
use crate::laws::of_books;
use crate::lot::{Lot, NotLive, Null};
use crate::resize::{resize_at_home, stays};
use crate::serve::serve;
use crate::way::{find_large_way, find_way};
use mz_base::laws::good_size_is_least;
use mz_base::{Profile, Range, route, unit, units};
use mz_book::Book;
use mz_events::laws::entries::states_split;
use mz_record::laws::moments;
use std::alloc::{AllocError, Global};
use std::sync::Wait;

/// A zone's requests. It keeps the profile and the number of the zone, and no block or region: all of these are the keepers'.
#[derive(Drop)]
pub struct Rack {
    profile: Profile,
    zone: u32,
    ghost limits: { IsWithinLimits profile } by { limits_once profile },
    ghost zone_in: { zone < profile.zones },
}

impl Rack {
    /// The rack of a zone.
    pub fn new(_alloc: Global, p: &Profile, zone: u32) -> Result<Rack, AllocError>
        requires limits { IsWithinLimits p.now }
        requires zone { zone < p.now.zones }
        ensures profile { IfOk result (λ r. r.profile ≡ p.now) }
        ensures zone { IfOk result (λ r. r.zone ≡ zone) }
    {
        Ok(Rack { profile: *p, zone })
    }

    /// A block for a request of `n` bytes at the alignment `al`, a power of two from 16 to 16,384.
    ///
    /// Tiny and small come from the caller's magazine; or from the lowest region of the depot with room, which moves to the
    /// magazine; or from a fresh region. Large is the cached run that fits best, or a fresh run.
    ///
    /// Where the pages have no run for a fresh one, the zone's cached large runs go back to them, the one cached first before
    /// the others, as long as that is so. `Null` comes only where they have none still, and nothing is cached.
    pub fn alloc<B: Book<Keeper>, R: Wait>(
        &self,
        rt: &R,
        book: &mut B,
        n: u64,
        al: u64,
    ) -> Result<Lot, Null>
        requires can { CanServe (B.account book.old) self.now.profile self.now.zone 36 }
        requires power { IsPowerOfTwo al }
        requires range { IsFrom 16 16384 al }
        ensures { Answers (B.account book.old) self.now.zone n al result (B.account book.new) }
    {
        of_books();
        states_split();
        moments();
        let served = if route(n) == Range::Large {
            let way = find_large_way(&self.profile, self.zone);
            serve_large(rt, book, &way, units(n), al)
        } else {
            let way = find_way(&self.profile, self.zone, book.caller(), n);
            serve(rt, book, &way, units(n) * unit(route(n)), al)
        };
        match served {
            Ok(span) => Ok(Lot::new(self.zone, span)),
            Err(null) => Err(null),
        }
    }

    /// Ends a block of the rack's zone, in the place where it lives. A magazine that is left in excess gives its
    /// lowest sparse region to the depot, and a region of the depot that is left without live blocks goes back to the
    /// pages, each at once. The run of a large block is cached; where that makes 17, the one cached first goes back to
    /// the pages. `NotLive` comes exactly where the lot is of another zone, and hands it back.
    ///
    /// The block is looked for in one place after another. Meanwhile others may move its region, and then
    /// the search begins again; between rounds it is found in the first.
    pub fn free<B: Book<Keeper>, R: Wait>(
        &self,
        rt: &R,
        book: &mut B,
        lot: Lot,
    ) -> Result<(), NotLive>
        requires can { CanServe (B.account book.old) self.now.profile self.now.zone 3 }
        requires lot { IsFreeable (B.account book.old) lot }
        ensures { Frees (B.account book.old) self.now.zone lot result (B.account book.new) }
    {
        of_books();
        states_split();
        moments();
        let home = find_home(rt, book, &self.profile, &lot);
        if lot.zone() == self.zone {
            end_block(rt, book, home, lot.into_span());
            Ok(())
        } else {
            let ticket = deny(book, home, self.zone, &lot);
            Err(NotLive { lot, ticket })
        }
    }

    /// Gives a block of the rack's zone the size for `n` bytes where it is. It answers false, and nothing changes, exactly
    /// where the block would have to move: to another range; a large one, that is too small or would waste as much as it
    /// needs; a tiny or small one, where a quantum that it needs behind it is outside the region or in a live block. One that
    /// has that size already stays, and so does a large one otherwise.
    ///
    /// A tiny or small block that is to have another size is looked for as by `free`, in one place after another.
    pub fn resize<B: Book<Keeper>, R: Wait>(
        &self,
        rt: &R,
        book: &mut B,
        lot: &mut Lot,
        n: u64,
    ) -> bool
        requires can { CanServe (B.account book.old) self.now.profile self.now.zone 1 }
        requires lot { IsFreeable (B.account book.old) lot.old }
        requires of_zone { lot.old.zone ≡ self.now.zone }
        requires some { 1 ≤ n }
        ensures { Resizes (B.account book.old) lot.old n result (B.account book.new) lot.new }
    {
        of_books();
        moments();
        good_size_is_least();
        let (s, range) = (lot.size(), route(n));
        if route(s) != range {
            return false;
        }
        if range == Range::Large {
            return stays(s, n);
        }
        let size = units(n) * unit(range);
        if size == s {
            return true;
        }
        resize_at_home(rt, book, &self.profile, lot, size)
    }
}
