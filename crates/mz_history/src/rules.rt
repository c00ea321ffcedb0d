//! The first rule that an event breaks.
ghost use Rattle.std.specs.Prelude.{◌≡◌, ℕ, ◌+◌, ◌==◌, ◌&&◌, ◌||◌, ◌%◌, ◌≤◌, nat_le, nat_lt, not, true, false, map, length, IfOk, IsTrue, Some, None, if◌then◌else◌};
ghost use Rattle.std.specs.List.{list_all};
ghost use Rattle.std.specs.Option.{option_map};
ghost use Rattle.mz_base.specs.Space.{block_at, blocks_apart};
ghost use Rattle.mz_base.specs.Lists.{has_block as some_block};
ghost use Rattle.mz_events.specs.declared.place.Place.TheVariants.{Nano as nano_place};
ghost use Rattle.mz_events.specs.declared.event.Event.TheVariants as event;
ghost use Rattle.mz_events.specs.Places.{is_magazine, is_depot, is_large as large, is_nano, is_length_of, is_size_of, is_pages, are_pair as pair_of, depot_of as depot_at, spot_of, spot_at};
ghost use Rattle.mz_events.specs.State.{kept_at, value_at};
ghost use Rattle.mz_events.specs.Duties.{is_that as that_event, allows as allowed, is_owed as owed};
ghost use Rattle.mz_events.specs.Effect.{touched as touched_by};
ghost use Rattle.mz_events.specs.Placement.{fits_apart_there, lies_in_nano, live_near, is_placed as placed_there};
ghost use Rattle.mz_events.specs.Rules.{meets_duties as duties_met, places_exist as existing_places, is_lowest_taken, claim_of as claim_by, same_claim as one_claim, is_claimed_taken, is_unused_back, is_allowed_back, is_owed_move, is_claimed_move, is_live_there, has_no_room, has_no_runs as no_runs_in, has_no_blocks as no_blocks_in, is_zone_change, number_of, first_broken};
ghost use Rattle.mz_holding.specs.Gaps.{far};
ghost use Rattle.mz_spots.specs.Keys.{spots_of, spot_of_key};
ghost use Rattle.mz_spots.specs.Slots.{deed_of};
ghost use Rattle.mz_history.specs.Booked.{first_of_two};

use crate::books::{Books, zone_of};
use mz_base::PAGE;
use mz_events::{Event, Place};
use mz_spots::{Done, Key, is_same_place, spots_of_zone, touched};
use std::alloc::AllocError;

// Whether an event is this duty.
fn is_that(duty: &Event, e: &Event) -> bool
    ensures { result ≡ that_event duty.now e.now }
{
    match (*duty, *e) {
        (
            Event::Move {
                first: f,
                from: j,
                to: k,
            },
            Event::Move {
                first: g,
                from: x,
                to: y,
            },
        ) => f == g && is_same_place(j, x) && is_same_place(k, y),
        (
            Event::Back {
                k,
                first: f,
                pages: w,
            },
            Event::Back {
                k: j,
                first: g,
                pages: v,
            },
        ) => is_same_place(k, j) && f == g && w == v,
        _ => false,
    }
}

// Whether no duty stands, or the event is it.
fn allows(duty: Option<Event>, e: &Event) -> bool
    ensures { result ≡ allowed duty e.now }
{
    match duty {
        None => true,
        Some(duty) => is_that(&duty, e),
    }
}

// Whether a duty stands, and the event is it.
fn is_owed(duty: Option<Event>, e: &Event) -> bool
    ensures { result ≡ owed duty e.now }
{
    match duty {
        None => false,
        Some(duty) => is_that(&duty, e),
    }
}

// What the caller found no room for, where its full is the last entry.
fn claim_of(caller: u32, last: Option<Done>) -> Option<(u64, u64)>
    ensures { result ≡ claim_by caller (option_map deed_of last) }
{
    match last {
        Some(
            Done {
                caller: c,
                event: Event::Full { n, al, .. },
            },
        ) if c == caller => Some((n, al)),
        _ => None,
    }
}

// Whether both are claims, for one size and one alignment.
fn is_same_claim(x: Option<(u64, u64)>, y: Option<(u64, u64)>) -> bool
    ensures { result ≡ one_claim x y }
{
    match (x, y) {
        (Some((n, al)), Some((m, bl))) => n == m && al == bl,
        _ => false,
    }
}

fn is_magazine_place(k: Place) -> bool
    ensures { result ≡ is_magazine k }
{
    matches!(k, Place::Tiny { .. } | Place::Small { .. })
}

fn is_depot_place(k: Place) -> bool
    ensures { result ≡ is_depot k }
{
    matches!(k, Place::TinyDepot { .. } | Place::SmallDepot { .. })
}

fn is_large(k: Place) -> bool
    ensures { result ≡ large k }
{
    matches!(k, Place::Large { .. })
}

fn is_nano_place(k: Place) -> bool
    ensures { result ≡ is_nano k }
{
    matches!(k, Place::Nano)
}

// The depot of a magazine.
fn depot_of(k: Place) -> Place
    ensures { result ≡ depot_at k }
{
    match k {
        Place::Tiny { zone, .. } => Place::TinyDepot { zone },
        Place::Small { zone, .. } => Place::SmallDepot { zone },
        _ => k,
    }
}

// Whether the two are a magazine and its depot, in either order.
fn are_pair(j: Place, k: Place) -> bool
    ensures { result ≡ pair_of j k }
{
    (is_magazine_place(j) && is_same_place(depot_of(j), k))
        || (is_magazine_place(k) && is_same_place(depot_of(k), j))
}

// Whether so many pages are a run of the place.
fn is_length(k: Place, pages: u64) -> bool
    ensures is { result ≡ is_length_of k pages }
    ensures some { IsTrue result → 1 ≤ pages }
{
    match k {
        Place::Tiny { .. } | Place::TinyDepot { .. } => pages == 64,
        Place::Small { .. } | Place::SmallDepot { .. } => pages == 512,
        Place::Large { .. } => 3 <= pages,
        Place::Pages | Place::Nano => false,
    }
}

// Whether so many bytes are a size of nano.
fn is_nano_size(n: u64) -> bool
    ensures { result ≡ is_size_of nano_place n }
{
    n % 16 == 0 && 16 <= n && n <= 256
}

// The first of two rules that is broken.
fn first_broken_of(first: u8, is_first: bool, second: u8, is_second: bool) -> Option<u8>
    ensures { result ≡ first_of_two first is_first second is_second }
{
    if !is_first {
        Some(first)
    } else if !is_second {
        Some(second)
    } else {
        None
    }
}

impl Books {
    /// The number of the first rule that an event of a caller breaks on this state.
    pub(crate) fn breach(&self, caller: u32, e: &Event) -> Result<Option<u8>, AllocError>
        ensures { IfOk result (λ why. why ≡ option_map number_of (first_broken self.now.profile self.now.state caller e.now)) }
    {
        let met = self.meets_duties(e)?;
        if !met {
            return Ok(Some(2));
        }
        let existing = self.is_existing(caller, e);
        if !existing {
            return Ok(Some(3));
        }
        match *e {
            Event::Take { k, first, pages } => Ok(self.take_breach(caller, k, first, pages)),
            Event::Back { k, first, pages } => Ok(self.back_breach(k, first, pages)),
            Event::Move { first, from, to } => Ok(self.move_breach(caller, first, from, to)),
            Event::New { k, a, s, al } => Ok(self.new_breach(k, a, s, al)),
            Event::End { k, a, s } => Ok(first_broken_of(12, self.has_block(k, a, s), 12, true)),
            Event::Size { k, a, s, s2 } => Ok(self.size_breach(k, a, s, s2)),
            Event::Full { k, n, al } => Ok(first_broken_of(13, self.is_full(k, n, al), 13, true)),
            Event::Dry { pages, al, .. } => Ok(first_broken_of(
                13,
                self.is_dry(pages, al),
                13,
                true,
            )),
            Event::No { k, zone, a, s } => {
                Ok(first_broken_of(12, self.is_denied(k, zone, a, s), 12, true))
            }
            Event::Open { zone } => {
                let may = self.may_open(zone)?;
                Ok(first_broken_of(14, may, 14, true))
            }
            Event::Shut { zone } => {
                let may = self.may_shut(zone)?;
                Ok(first_broken_of(14, may, 14, true))
            }
        }
    }

    // Rule 2.
    fn meets_duties(&self, e: &Event) -> Result<bool, AllocError>
        ensures { IfOk result (λ b. b ≡ duties_met self.now.profile self.now.state e.now) }
    {
        let keys = touched(self.alloc, &self.profile, e)?;
        Ok(self.all_allow(&keys, e))
    }

    // Whether no duty at these spots stands against the event.
    fn all_allow(&self, keys: &[Key], e: &Event) -> bool
        ensures { result ≡ list_all (λ key. allowed (value_at self.now.state (spot_of_key key)).duty e.now) keys.now }
    {
        keys.iter().all(|key| allows(self.duty(*key), e))
    }

    // Rule 3.
    fn is_existing(&self, caller: u32, e: &Event) -> bool
        ensures { result ≡ (nat_lt caller self.now.profile.callers && existing_places self.now.profile self.now.state e.now) }
    {
        caller < self.profile.callers && self.places_exist(e)
    }

    // The same, but for the caller.
    fn places_exist(&self, e: &Event) -> bool
        ensures { result ≡ existing_places self.now.profile self.now.state e.now }
    {
        match *e {
            Event::Take { k, .. } => (is_magazine_place(k) || is_large(k)) && self.stands(k),
            Event::Back { k, .. } => {
                (is_magazine_place(k) || is_depot_place(k) || is_large(k)) && self.exists(k)
            }
            Event::Move { from, to, .. } => {
                are_pair(from, to) && self.stands(from) && self.stands(to)
            }
            Event::New { k, .. } => {
                (is_magazine_place(k) || is_large(k) || matches!(k, Place::Nano)) && self.stands(k)
            }
            Event::End { k, .. } => !matches!(k, Place::Pages) && self.stands(k),
            Event::Size { k, .. } => {
                (is_magazine_place(k) || is_depot_place(k)) && self.stands(k)
            }
            Event::Full { k, .. } => {
                (is_magazine_place(k) || is_depot_place(k) || is_large(k)) && self.stands(k)
            }
            Event::Dry { zone, .. } => self.zone_stands(zone),
            Event::No { k, zone, .. } => {
                !matches!(k, Place::Pages) && self.stands(k) && self.zone_stands(zone)
            }
            Event::Open { zone } | Event::Shut { zone } => zone < self.profile.zones,
        }
    }

    // Rules 4 and 5.
    fn take_breach(&self, caller: u32, k: Place, first: u64, pages: u64) -> Option<u8>
        requires { IsTrue (is_magazine k || large k) }
        ensures { let e = event.Take k first pages in let s = self.now.state in
            result ≡ first_of_two 4 (is_lowest_taken self.now.profile s e) 5 (is_claimed_taken s caller e) }
    {
        let lowest = self.is_lowest_taken(k, first, pages);
        first_broken_of(4, lowest, 5, self.is_claimed_taken(caller, k, pages))
    }

    fn is_lowest_taken(&self, k: Place, first: u64, pages: u64) -> bool
        ensures { result ≡ is_lowest_taken self.now.profile self.now.state (event.Take k first pages) }
    {
        if !is_length(k, pages) {
            return false;
        }
        let al = if is_large(k) { 1 } else { pages };
        self.free()
            .is_lowest_free(self.nano_start(), first, pages, al)
    }

    fn is_claimed_taken(&self, caller: u32, k: Place, pages: u64) -> bool
        requires { IsTrue (is_magazine k || large k) }
        ensures { (first : ℕ) → result ≡ is_claimed_taken self.now.state caller (event.Take k first pages) }
    {
        if is_large(k) {
            return !self.holding(k).any_fits(pages);
        }
        let found = claim_of(caller, self.last(Key::of(k)));
        is_same_claim(found, claim_of(caller, self.last(Key::of(depot_of(k)))))
    }

    // Rules 6 and 7.
    fn back_breach(&self, k: Place, first: u64, pages: u64) -> Option<u8>
        requires { IsTrue (is_magazine k || is_depot k || large k) }
        ensures { let e = event.Back k first pages in let s = self.now.state in
            result ≡ first_of_two 6 (is_unused_back s e) 7 (is_allowed_back s e) }
    {
        let unused = self.holding(k).is_unused_run(first, pages);
        first_broken_of(6, unused, 7, self.is_allowed_back(k, first, pages))
    }

    fn is_allowed_back(&self, k: Place, first: u64, pages: u64) -> bool
        ensures { result ≡ is_allowed_back self.now.state (event.Back k first pages) }
    {
        if !self.is_open(zone_of(k)) {
            return true;
        }
        match k {
            Place::Tiny { .. } | Place::Small { .. } => false,
            Place::Large { .. } => is_owed(self.duty(Key::of(k)), &Event::Back { k, first, pages }),
            _ => true,
        }
    }

    // Rules 8 and 9.
    fn move_breach(&self, caller: u32, first: u64, from: Place, to: Place) -> Option<u8>
        requires { IsTrue (pair_of from to) }
        ensures { let e = event.Move first from to in let s = self.now.state in
            result ≡ first_of_two 8 (is_owed_move s e) 9 (is_claimed_move s caller e) }
    {
        if is_depot_place(to) {
            let owed = is_owed(self.duty(Key::of(from)), &Event::Move { first, from, to });
            return first_broken_of(8, owed, 9, true);
        }
        first_broken_of(8, true, 9, self.is_claimed_move(caller, first, from, to))
    }

    fn is_claimed_move(&self, caller: u32, first: u64, from: Place, to: Place) -> bool
        requires pair { IsTrue (pair_of from to) }
        requires out { is_depot to ≡ false }
        ensures { result ≡ is_claimed_move self.now.state caller (event.Move first from to) }
    {
        let _slots = &self.slots;
        match claim_of(caller, self.last(Key::of(to))) {
            Some((n, al)) => self.holding(from).is_lowest_with_room(first, n, al),
            None => false,
        }
    }

    // Rules 10 and 11.
    fn new_breach(&self, k: Place, a: u64, n: u64, al: u64) -> Option<u8>
        requires { IsTrue (is_magazine k || large k || is_nano k) }
        ensures { let e = event.New k a n al in let s = self.now.state in
            result ≡ first_of_two 10 (fits_apart_there self.now.profile s e) 11 (placed_there s e) }
    {
        let nano = is_nano_place(k);
        if nano {
            return self.nano_breach(a, n, al);
        }
        let holding = self.holding(k);
        let apart = holding.is_apart(k, a, n, al);
        if !apart {
            return Some(10);
        }
        first_broken_of(10, true, 11, holding.is_placed(k, a, n, al))
    }

    // The same in nano.
    fn nano_breach(&self, a: u64, n: u64, al: u64) -> Option<u8>
        ensures { let e = event.New nano_place a n al in let s = self.now.state in
            result ≡ first_of_two 10 (fits_apart_there self.now.profile s e) 11 (placed_there s e) }
    {
        let fits = self.is_in_nano(a, n, al);
        if !fits {
            return Some(10);
        }
        let apart = self.is_apart_in_nano(a, n);
        if !apart {
            return Some(10);
        }
        first_broken_of(10, true, 11, self.nano(a / PAGE).is_placed(a, n))
    }

    // Whether the block is of a size of nano, at the alignment, and among its bytes.
    fn is_in_nano(&self, a: u64, n: u64, al: u64) -> bool
        ensures is { result ≡ (is_size_of nano_place n && nat_le 1 al && (a % al == 0) && lies_in_nano self.now.profile (block_at a n)) }
        ensures some { IsTrue result → (1 ≤ n) × (a + n ≤ far) }
    {
        let p = &self.profile;
        is_nano_size(n)
            && 1 <= al
            && a % al == 0
            && self.nano_start() * PAGE <= a
            && a <= p.pages * PAGE
            && n <= p.pages * PAGE - a
    }

    // Whether it meets no live block.
    fn is_apart_in_nano(&self, a: u64, n: u64) -> bool
        requires some { 1 ≤ n }
        requires fits { a + n ≤ far }
        ensures { result ≡ list_all (λ c. blocks_apart c (block_at a n)) (live_near self.now.state nano_place (block_at a n)) }
    {
        let last = (a + n - 1) / PAGE;
        self.nano(a / PAGE).is_apart(a, n) && self.nano(last).is_apart(a, n)
    }

    // Whether a block is live in a place.
    fn has_block(&self, k: Place, a: u64, n: u64) -> bool
        requires { is_pages k ≡ false }
        ensures { result ≡ some_block (kept_at self.now.state (spot_at k a)).live (block_at a n) }
    {
        match k {
            Place::Nano => self.nano(a / PAGE).has_block(a, n),
            _ => self.holding(k).has_block(a, n),
        }
    }

    // Rule 12 of no.
    fn is_denied(&self, k: Place, zone: u32, a: u64, n: u64) -> bool
        requires { is_pages k ≡ false }
        ensures { result ≡ is_live_there self.now.state (event.No k zone a n) }
    {
        self.has_block(k, a, n) && zone_of(k) != zone
    }

    // Rules 10 and 12.
    fn size_breach(&self, k: Place, a: u64, n: u64, m: u64) -> Option<u8>
        requires { IsTrue (is_magazine k || is_depot k) }
        ensures { let e = event.Size k a n m in let s = self.now.state in
            result ≡ first_of_two 10 (fits_apart_there self.now.profile s e) 12 (is_live_there s e) }
    {
        let apart = self.holding(k).is_resized_apart(k, a, m);
        first_broken_of(10, apart, 12, self.has_block(k, a, n))
    }

    // Rule 13 of full.
    fn is_full(&self, k: Place, n: u64, al: u64) -> bool
        requires { IsTrue (is_magazine k || is_depot k || large k) }
        ensures { result ≡ has_no_room self.now.profile self.now.state (event.Full k n al) }
    {
        if n == 0 || al == 0 {
            return false;
        }
        let holding = self.holding(k);
        if is_large(k) {
            !holding.any_fits(n)
        } else {
            !holding.has_any_room(n, al)
        }
    }

    // Rule 13 of dry.
    fn is_dry(&self, pages: u64, al: u64) -> bool
        ensures { (z : ℕ) → result ≡ has_no_room self.now.profile self.now.state (event.Dry z pages al) }
    {
        pages != 0 && al != 0 && !self.free().has_free(self.nano_start(), pages, al)
    }

    // Rule 14 of open.
    fn may_open(&self, zone: u32) -> Result<bool, AllocError>
        ensures { IfOk result (λ b. b ≡ is_zone_change self.now.profile self.now.state (event.Open zone)) }
    {
        if self.is_open(zone) {
            return Ok(false);
        }
        let keys = spots_of_zone(self.alloc, &self.profile, zone)?;
        Ok(self.all_without_runs(&keys))
    }

    // Whether none of these spots has a run.
    fn all_without_runs(&self, keys: &[Key]) -> bool
        ensures { result ≡ list_all (λ key. length (kept_at self.now.state (spot_of_key key)).runs == 0) keys.now }
    {
        keys.iter().all(|key| self.has_no_runs(*key))
    }

    // Rule 14 of shut.
    fn may_shut(&self, zone: u32) -> Result<bool, AllocError>
        ensures { IfOk result (λ b. b ≡ is_zone_change self.now.profile self.now.state (event.Shut zone)) }
    {
        if zone == 0 || !self.is_open(zone) {
            return Ok(false);
        }
        let keys = spots_of_zone(self.alloc, &self.profile, zone)?;
        Ok(self.all_without_blocks(&keys))
    }

    // Whether no block is live at any of these spots.
    fn all_without_blocks(&self, keys: &[Key]) -> bool
        ensures { result ≡ list_all (λ key. length (kept_at self.now.state (spot_of_key key)).live == 0) keys.now }
    {
        keys.iter().all(|key| self.has_no_blocks(*key))
    }
}
