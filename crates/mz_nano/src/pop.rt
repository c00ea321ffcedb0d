//! A slot is popped: the first of the first usable block, or that of a block claimed for it.
ghost use Rattle.std.specs.Prelude.{◌≡◌, ◌≢◌, ℕ, ◌+◌, ◌-◌, ◌*◌, ◌≤◌, ◌<◌, ◌^◌, true, [], ◌∷◌, Some, None, IfOk, IfErr, OnOk, OnErr, List, IsTrue, ◌↔◌, if◌then◌else◌, nat_lt};
ghost use Rattle.atomic_table.specs.Table.{rest};
ghost use Rattle.mz_nanoword.specs.Words.{word_of};
ghost use Rattle.mz_nano.specs.declared.view.Known.{Known};
ghost use Rattle.mz_nano.specs.declared.view.Load.{Load};
ghost use Rattle.mz_nano.specs.Lists.{In};
ghost use Rattle.mz_nano.specs.Rule.{held, known, known_link, claim, vacant, KnownKeeps, IsReady, IsPiece, slots};
ghost use Rattle.mz_nano.specs.StepEffects.{clash_noted, slot_of};
ghost use Rattle.mz_nano.specs.SeatLists.{SitsAt, space_of, first_of};
ghost use Rattle.mz_nano.specs.CallEffects.{OnlyLoaded, IsCandidate, TookFirst, Popped, ClaimPopped, ClaimLost, MissOf, risen, cut_view};

use crate::nano::{Nano, PLACES};
use crate::seat::{Miss, NanoSeat};
use crate::slot::SlotSpan;
use crate::view::{Held, View};
use atomic_table::Seat;
use mz_base::PAGE;
use mz_ground::Parcel;
use mz_nanoword::NanoWord;
use std::mem;

/// Which block a pop tries, by the words that it loaded.
pub enum Candidate {
    /// The block, its word and what it says.
    Usable(u64, u64, NanoWord),
    Unassigned(u64),
    Nothing,
}

fn is_usable(word: &NanoWord, class: u64, most_gen: u64) -> bool
    ensures { IsTrue result ↔ ((word.now.state ≡ class) × (1 ≤ word.now.free) × (word.now.generation < most_gen)) }
{
    word.state == class && word.free > 0 && word.generation < most_gen
}

// The first unassigned block up to `b`, or the number of blocks.
fn pick(fresh: u64, blocks: u64, state: u64, b: u64) -> u64
    ensures here { state ≡ 0 → fresh ≡ blocks → result ≡ b }
    ensures assigned { state ≢ 0 → result ≡ fresh }
    ensures later { fresh ≢ blocks → result ≡ fresh }
{
    if state == 0 && fresh == blocks {
        b
    } else {
        fresh
    }
}

// The link of the slot `k` of `n` in a row.
fn next_of(k: u64, n: u64) -> u64
    requires { k < 1024 }
    ensures { result ≡ (if nat_lt (k + 1) n then k + 2 else 0) }
{
    if k + 1 < n { k + 2 } else { 0 }
}

// How many slots of the class a block has.
fn slot_count(class: u64) -> u64
    requires { (1 ≤ class) × (class ≤ 16) }
    ensures count { result ≡ slots class }
    ensures most { result ≤ 1024 }
    ensures least { 64 ≤ result }
    ensures whole { class * result ≤ 1024 }
{
    1024 / class
}

// How far the slot is behind the first page.
fn slot_at(block: u64, slot: u64, class: u64) -> u64
    requires block { block < 2 ^ 50 }
    requires class { class ≤ 16 }
    requires few { 16 * class * slot < 16384 }
    ensures { result ≡ block * 16384 + 16 * class * slot }
{
    block * PAGE + 16 * class * slot
}

impl Nano {
    // Loads the blocks' words up to the first that is usable.
    pub(crate) fn scan(&self, seat: &mut Seat<Option<Parcel>, View>, class: u64) -> Candidate
        requires table { seat.old.table_id ≡ self.now.table.shared.table_id }
        requires geometry { seat.old.me.0.geometry ≡ self.now.table.shared.key }
        requires live { seat.old.me.0.live ≡ true }
        ensures table { seat.new.table_id ≡ seat.old.table_id }
        ensures carried { seat.new.me.1 ≡ seat.old.me.1 }
        ensures loaded { (more : List Load) × OnlyLoaded seat.old.me.0 seat.new.me.0 more × IsCandidate seat.old.me.0.geometry class more seat.new.me.0.known result }
    {
        let mut fresh = self.blocks;
        for b in 0..self.blocks {
            let w = self.load_block(seat, b);
            let Some(word) = NanoWord::unpack(w) else {
                unreachable!()
            };
            if is_usable(&word, class, self.most_gen) {
                return Candidate::Usable(b, w, word);
            }
            fresh = pick(fresh, self.blocks, word.state, b);
        }
        if fresh < self.blocks {
            Candidate::Unassigned(fresh)
        } else {
            Candidate::Nothing
        }
    }

    // Tries to take the first slot of the word `old`, whose link is known.
    pub(crate) fn take_first(
        &self,
        seat: &mut Seat<Option<Parcel>, View>,
        b: u64,
        old: u64,
        word: NanoWord,
        link: u64,
    ) -> Result<Parcel, u64>
        requires table { seat.old.table_id ≡ self.now.table.shared.table_id }
        requires geometry { seat.old.me.0.geometry ≡ self.now.table.shared.key }
        requires exists { b < self.now.blocks }
        requires live { seat.old.me.0.live ≡ true }
        requires outs { seat.old.me.0.vacant ≡ [] }
        requires word { word ≡ word_of old }
        requires known { In (known b old) seat.old.me.0.known }
        requires first_links { In (known_link b old link) seat.old.me.0.first_links }
        requires ready { IsReady word }
        requires first { (1 ≤ word.next) × (word.next ≤ 1024) }
        requires free { (1 ≤ word.free) × (word.free ≤ 1024) }
        requires below { word.generation < self.now.most_gen }
        requires small { link ≤ 1024 }
        ensures table { seat.new.table_id ≡ seat.old.table_id }
        ensures ok { IfOk result (λ s. TookFirst seat.old.me b (slot_of old) word.state old link s seat.new.me) }
        ensures err { IfErr result (λ n. (n ≢ old) × (seat.new.me ≡ (clash_noted seat.old.me.0 b old n, seat.old.me.1)) × KnownKeeps seat.old.me.0.geometry.most_gen (word_of n) (word_of old)) }
    {
        let _most = self.most_gen;
        let new = NanoWord {
            next: link,
            free: word.free - 1,
            state: word.state,
            generation: word.generation + 1,
        };
        let found = self.pop_exchange(seat, b, old, new.pack());
        if found != old {
            return Err(found);
        }
        let slot = word.next - 1;
        let parcel = match self
            .table
            .shared
            .exchange(seat, (b * PLACES + slot) as usize, None)
        {
            Some(parcel) => parcel,
            None => unreachable!(),
        };
        self.give_place(seat, b);
        Ok(parcel)
    }

    // Cuts a claimed page into its slots, and answers the rest of it.
    pub(crate) fn cut_all(
        &self,
        seat: &mut Seat<Option<Parcel>, View>,
        b: u64,
        class: u64,
        n: u64,
        page: Parcel,
    ) -> Parcel
        requires table { seat.old.table_id ≡ self.now.table.shared.table_id }
        requires geometry { seat.old.me.0.geometry ≡ self.now.table.shared.key }
        requires exists { b < self.now.blocks }
        requires live { seat.old.me.0.live ≡ true }
        requires class { (1 ≤ class) × (class ≤ 16) × (n ≡ slots class) × (n ≤ 1024) × (class * n ≤ 1024) }
        requires claimed { (seat.old.me.0.claim ≡ claim b class 0 ∷ []) × (seat.old.me.0.vacant ≡ vacant b 0 ∷ []) × (seat.old.me.0.stored ≡ []) }
        requires carried { seat.old.me.1 ≡ (b * 1025 + 0, None) ∷ rest seat.old.me.1 }
        requires page { IsPiece seat.old.me.0.geometry b 0 16384 page }
        ensures table { seat.new.table_id ≡ seat.old.table_id }
        ensures view { seat.new.me.0 ≡ cut_view seat.old.me.0 b class n }
        ensures carried { seat.new.me.1 ≡ (b * 1025 + n, None) ∷ rest seat.old.me.1 }
        ensures rest { IsPiece seat.old.me.0.geometry b (16 * class * n) (16384 - 16 * class * n) result }
    {
        let _blocks = self.blocks;
        let mut left = page;
        for k in 0..n {
            let next = left.cut_off(16 * class);
            let front = mem::replace(&mut left, next);
            let place = self
                .table
                .shared
                .exchange(seat, (b * PLACES + k) as usize, Some(front));
            let None = place else { unreachable!() };
            self.cut(seat, b, k, next_of(k, n));
        }
        left
    }

    // Claims the block `b`, makes it ready and takes its first slot.
    pub(crate) fn claim(
        &self,
        seat: &mut Seat<Option<Parcel>, View>,
        b: u64,
        class: u64,
    ) -> Result<Parcel, (u64, u64)>
        requires table { seat.old.table_id ≡ self.now.table.shared.table_id }
        requires geometry { seat.old.me.0.geometry ≡ self.now.table.shared.key }
        requires exists { b < self.now.blocks }
        requires live { seat.old.me.0.live ≡ true }
        requires at_rest { (seat.old.me.0.vacant ≡ []) × (seat.old.me.0.claim ≡ []) × (seat.old.me.1 ≡ []) }
        requires class { (1 ≤ class) × (class ≤ 16) }
        ensures table { seat.new.table_id ≡ seat.old.table_id }
        ensures ok { IfOk result (λ s. ClaimPopped seat.old.me b class s seat.new.me) }
        ensures err { IfErr result (λ e. ClaimLost seat.old.me b class e.0 e.1 seat.new.me) }
    {
        let _blocks = self.blocks;
        let claimed = NanoWord {
            next: class,
            free: 0,
            state: 17,
            generation: 0,
        };
        let found = self.claim_exchange(seat, b, 0, claimed.pack());
        if found != 0 {
            return Err((0, found));
        }
        let page = match self
            .table
            .shared
            .exchange(seat, (b * PLACES) as usize, None)
        {
            Some(page) => page,
            None => unreachable!(),
        };
        let n = slot_count(class);
        let left = self.cut_all(seat, b, class, n, page);
        let place = self
            .table
            .shared
            .exchange(seat, (b * PLACES + n) as usize, Some(left));
        let None = place else { unreachable!() };
        let ready = NanoWord {
            next: 1,
            free: n,
            state: class,
            generation: 0,
        };
        let word = ready.pack();
        self.make_ready(seat, b, word);
        match self.take_first(seat, b, word, ready, 2) {
            Ok(parcel) => Ok(parcel),
            Err(found) => Err((word, found)),
        }
    }

    // Lays a slot's bytes. It has the first address of the nano's span with it.
    pub(crate) fn slot_span(&self, block: u64, slot: u64, class: u64, parcel: Parcel) -> SlotSpan
        requires class { (1 ≤ class) × (class ≤ 16) }
        requires slot { slot < slots class }
        requires exists { block < self.now.blocks }
        requires piece { IsPiece self.now.table.shared.key block (16 * class * slot) (16 * class) parcel }
        ensures which { (result.block ≡ block) × (result.slot ≡ slot) × (result.class ≡ class) }
        ensures base { result.base ≡ first_of self.now }
        ensures span { result.span ≡ parcel }
    {
        let at = slot_at(block, slot, class);
        let strip = self.estate.lay(parcel, at, 16 * class);
        SlotSpan::new(block, slot, class, self.estate.first(), strip)
    }

    // A pop by the seat within.
    pub(crate) fn pop_once(
        &self,
        seat: &mut Seat<Option<Parcel>, View>,
        class: u64,
    ) -> Result<SlotSpan, Miss>
        requires table { seat.old.table_id ≡ self.now.table.shared.table_id }
        requires geometry { seat.old.me.0.geometry ≡ self.now.table.shared.key }
        requires live { seat.old.me.0.live ≡ true }
        requires at_rest { (seat.old.me.0.vacant ≡ []) × (seat.old.me.0.claim ≡ []) × (seat.old.me.1 ≡ []) }
        requires class { (1 ≤ class) × (class ≤ 16) }
        ensures table { seat.new.table_id ≡ seat.old.table_id }
        ensures ok { IfOk result (λ s. Popped seat.old.me s.block s.slot class s.span seat.new.me × (s.class ≡ class) × (s.base ≡ first_of self.now)) }
        ensures err { IfErr result (λ m. MissOf seat.old.me class m seat.new.me) }
    {
        match self.scan(seat, class) {
            Candidate::Nothing => Err(Miss::Exhausted),
            Candidate::Unassigned(block) => match self.claim(seat, block, class) {
                Ok(parcel) => Ok(self.slot_span(block, 0, class, parcel)),
                Err((expected, found)) => Err(Miss::Contended {
                    block,
                    expected,
                    found,
                }),
            },
            Candidate::Usable(block, expected, word) => {
                let slot = word.next - 1;
                let link = self.load_link(seat, block, slot);
                match self.take_first(seat, block, expected, word, link) {
                    Ok(parcel) => Ok(self.slot_span(block, slot, class, parcel)),
                    Err(found) => Err(Miss::Contended {
                        block,
                        expected,
                        found,
                    }),
                }
            }
        }
    }

    /// Pops a slot of the class, 1 to 16, with 16 bytes for each unit of it.
    ///
    /// The blocks' words are loaded from block 0 on. Of the first usable block, which is ready with
    /// this class and has a free slot and a generation below the last, the first slot is tried by one
    /// exchange. Where none is usable, the first unassigned block is claimed by one exchange, its
    /// slots are linked in ascending order, and its first slot is tried by another.
    ///
    /// `Exhausted` where no block was usable or unassigned. `Contended` where an exchange found another
    /// word than it expected, because another seat changed the block meanwhile. The hand is as before
    /// then. A block that was claimed is ready and stays so.
    pub fn pop(&self, seat: &mut NanoSeat, class: u64) -> Result<SlotSpan, Miss>
        requires one { SitsAt self.now seat.old }
        requires class { (1 ≤ class) × (class ≤ 16) }
        ensures one { SitsAt self.now seat.new }
        ensures tries { seat.new.tries ≡ risen seat.old.tries }
        ensures number { seat.new.number ≡ seat.old.number }
        ensures ok { IfOk result (λ s. Popped seat.old.seat.me s.block s.slot class s.span seat.new.seat.me × (s.class ≡ class)) }
        ensures place { IfOk result (λ s. (s.span.space ≡ space_of self.now) × (s.base ≡ first_of self.now)) }
        ensures popped { IfOk result (λ s. seat.new.popped ≡ Some (held s.block s.slot class)) }
        ensures hit { OnOk result ((seat.new.misses ≡ seat.old.misses) × (seat.new.missed ≡ seat.old.missed)) }
        ensures err { IfErr result (λ m. MissOf seat.old.seat.me class m seat.new.seat.me) }
        ensures miss { OnErr result ((seat.new.misses ≡ risen seat.old.misses) × (seat.new.missed ≡ class) × (seat.new.popped ≡ seat.old.popped)) }
    {
        let _blocks = self.blocks;
        seat.tries = rise(seat.tries);
        match self.pop_once(&mut seat.seat, class) {
            Ok(s) => {
                seat.popped = Some(Held {
                    block: s.block(),
                    slot: s.slot(),
                    class,
                });
                seat.held += 1;
                Ok(s)
            }
            Err(miss) => {
                seat.misses = rise(seat.misses);
                seat.missed = class;
                Err(miss)
            }
        }
    }
}

// A count rises, and stays at its end.
fn rise(n: u64) -> u64
    ensures { result ≡ risen n }
{
    if n < u64::MAX { n + 1 } else { n }
}
