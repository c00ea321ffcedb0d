//! A book with no atomics, for one caller at a time.
ghost use Rattle.std.specs.Prelude.{◌≡◌, ℕ, ◌+◌, ◌-◌, ◌*◌, ◌<◌, ◌≤◌, ◌^◌, nat_lt, nat_le, true, false, [], length, map, vec_len, Some, None, IfOk, OnOk, OnErr, IsTrue};
ghost use Rattle.std.specs.List.{list_all};
ghost use Rattle.std.specs.Vec.{vec_capacity};
ghost use Rattle.mz_base.specs.Limits.{IsWithinLimits};
ghost use Rattle.mz_base.specs.Codes.{limits_once};
ghost use Rattle.mz_events.specs.State.{opening, value_at};
ghost use Rattle.mz_events.specs.History.{AreLawful, after_all, IsLawfulHistory};
ghost use Rattle.mz_events.specs.Changes.{one_for};
ghost use Rattle.mz_events.specs.Codes.{all_lawful_once};
ghost use Rattle.mz_book.specs.Keepers.{keeper_count, keeper_spot, is_among};
ghost use Rattle.mz_book.specs.Account.{is_ascending, StandsFor, HoldsNothing, class_of, slot_word, known};
ghost use Rattle.mz_book.specs.Owners.{pairs_told};
ghost use Rattle.mz_book.specs.Rule.{AreHome, AreInOneHand, AreOfClass, AreWords, KeepsRule, home_once, in_one_hand_once, of_class_once, words_once};
ghost use Rattle.mz_book.specs.Plain.{site_of, last_site, StandAtFirst, opening_account, Reserves, ActsAs, CanGive, Gives};

use crate::book::Book;
use crate::laws::live::live_blocks_after_an_event;
use crate::laws::of_histories;
use crate::light::{Asked, Found, Light};
use crate::pair::{leave, own, set_owner};
use mz_base::Profile;
use mz_events::laws::separation::live_bytes_fit_the_space;
use mz_events::{Entry, Event, Keep};
use std::alloc::{AllocError, Global};
use std::snapshot::Snapshot;
use std::sync::Wait;

/// A book that owns all keepers, the whole history, all hands, and the class and slot words. It is used between rounds, when
/// nobody else acts. It is a book for the caller that it acts as.
///
/// The history has at most `limit` entries, for which there is room. `quanta` has for each quantum of the space the caller who owns the
/// block that begins there: with the history it tells whose each live block is, and a call changes one byte of it at most. `site` is the last keeper as it was first, for contracts alone: all
/// keepers are of its space.
#[derive(Drop)]
pub struct PlainBook<V: Keep> {
    pub(crate) profile: Profile,
    pub(crate) caller: u32,
    pub(crate) history: Vec<Entry>,
    pub(crate) limit: usize,
    pub(crate) held: Vec<usize>,
    pub(crate) keepers: Vec<Option<V>>,
    pub(crate) quanta: Vec<u8>,
    pub(crate) classes: Vec<u64>,
    pub(crate) slots: Vec<u64>,
    pub(crate) holds: u64,
    pub(crate) founds: u64,
    pub(crate) found: Option<Asked>,
    pub(crate) site: Snapshot<V>,
    ghost limits: { IsWithinLimits profile } by { limits_once profile },
    ghost caller_in: { caller < profile.callers },
    ghost lawful: { AreLawful profile opening history.items } by { all_lawful_once profile opening history.items },
    ghost within: { length history.items ≤ limit },
    ghost limited: { limit ≤ vec_capacity history },
    ghost few: { limit ≤ 2 ^ 58 },
    ghost quantum_count: { length quanta.items ≡ profile.pages * 1024 },
    ghost sized: { length keepers.items ≡ keeper_count profile },
    ghost held_room: { keeper_count profile ≤ vec_capacity held },
    ghost ascending: { is_ascending 0 held.items ≡ true },
    ghost below: { list_all (λ x. nat_lt x (keeper_count profile)) held.items ≡ true },
    ghost home: { AreHome V.keeping (site_of (V.keeping site.value)) profile (after_all profile opening history.items) held.items keepers.items } by { home_once V.keeping (site_of (V.keeping site.value)) profile (after_all profile opening history.items) held.items keepers.items },
    ghost in_one_hand: { AreInOneHand (after_all profile opening history.items) (pairs_told quanta.items history.items) } by { in_one_hand_once (after_all profile opening history.items) (pairs_told quanta.items history.items) },
    ghost class_count: { length classes.items ≡ profile.nano },
    ghost class_most: { list_all (λ c. nat_le c 16) classes.items ≡ true },
    ghost of_class: { AreOfClass profile (after_all profile opening history.items) classes.items } by { of_class_once profile (after_all profile opening history.items) classes.items },
    ghost slot_count: { length slots.items ≡ profile.nano * 1024 },
    ghost words: { AreWords profile (after_all profile opening history.items) caller (pairs_told quanta.items history.items) slots.items } by { words_once profile (after_all profile opening history.items) caller (pairs_told quanta.items history.items) slots.items },
}

/// Where a slot's word stands: each block has 1,024.
fn word_place(b: u64, j: u64) -> usize
    requires block { b < 1024 }
    requires slot { j < 1024 }
    ensures { result ≡ b * 1024 + j }
{
    (b * 1024 + j) as usize
}

/// The word of a slot whose light is free.
fn word_of(live: bool) -> u64
    ensures { result ≡ one_for live }
{
    if live { 1 } else { 0 }
}

impl<V: Keep> Book<V> for PlainBook<V> {
    ghost use Rattle.std.specs.Prelude.{refl};
    ghost use Rattle.mz_book.specs.Plain.{plain_account, few_noted, few_seen, at_most};
    ghost use Rattle.mz_book.specs.Exchanges.{no_exchanges};

    ghost account = { λ b. plain_account b.profile b.caller (site_of (V.keeping b.site.value)) b.history.items b.limit b.held.items (pairs_told b.quanta.items b.history.items) b.classes.items b.slots.items b.holds b.founds b.found };

    ghost exchanges = { λ _. no_exchanges };

    fn caller(&self) -> u32 {
        self.caller
    }

    fn hold<R: Wait>(&mut self, _rt: &R, k: usize) -> V {
        self.held.push_reserved(k);
        self.holds = self.holds.saturating_add(1);
        match self.keepers[k].take() {
            Some(v) => v,
            None => unreachable!(),
        }
    }

    fn note(&mut self, e: Event) -> u64 {
        of_histories();
        live_blocks_after_an_event();
        live_bytes_fit_the_space();
        let ticket = self.history.len() as u64;
        self.history.push_reserved(Entry {
            ticket,
            caller: self.caller,
            event: e,
        });
        own(&mut self.quanta, self.caller as u8, e);
        ticket
    }

    fn release(&mut self, k: usize, v: V) {
        leave(&mut self.held, k);
        let old = self.keepers[k].replace(v);
        let None = old else { unreachable!() };
    }

    fn settle(&mut self, b: u64, class: u64) -> Result<(), Found> {
        of_histories();
        let word = self.classes[b as usize];
        if word == 0 || word == class {
            self.classes[b as usize] = class;
            return Ok(());
        }
        self.founds = self.founds.saturating_add(1);
        self.found = Some(Asked::Settle { block: b, class });
        Err(Found { word })
    }

    fn hold_light(&mut self, b: u64, j: u64, expect: u64) -> Result<Light, Found> {
        of_histories();
        let place = word_place(b, j);
        let word = self.slots[place];
        if word == expect {
            self.slots[place] = 2 + u64::from(self.caller);
            return Ok(Light { block: b, slot: j });
        }
        self.founds = self.founds.saturating_add(1);
        self.found = Some(Asked::HoldLight {
            block: b,
            slot: j,
            expect,
        });
        Err(Found { word })
    }

    fn release_light(&mut self, l: Light, live: bool) {
        of_histories();
        let Light { block, slot } = l;
        self.slots[word_place(block, slot)] = word_of(live);
    }

    ghost orderly = { λ b. record { limits = b.limits; caller = b.caller_in; lawful = b.lawful; recorded = record { before = []; is = refl }; ascending = b.ascending; below = b.below; few = few_noted b.caller b.history.items b.limit b.within b.few; counted = few_seen (length b.history.items) b.limit b.profile.callers b.within b.few; owned = λ x. at_most (b.in_one_hand x); settled = b.class_count; classes = b.class_most } };
}

impl<V: Keep> PlainBook<V> {
    /// The profile that was given to `new`.
    pub fn profile(&self) -> &Profile
        ensures { result.now ≡ (⟦<PlainBook<V> as Book<V>>⟧.account self.now).profile }
    {
        &self.profile
    }

    /// The whole history, in order of ticket.
    pub fn history(&self) -> &[Entry]
        ensures { result.now ≡ (⟦<PlainBook<V> as Book<V>>⟧.account self.now).seen }
    {
        self.history.as_slice()
    }

    /// A keeper that isn't held. It stands for its place in the last state, and no duty stands there.
    pub fn keeper(&self, k: usize) -> &V
        requires exists { k < keeper_count (⟦<PlainBook<V> as Book<V>>⟧.account self.now).profile }
        requires home { is_among (⟦<PlainBook<V> as Book<V>>⟧.account self.now).held k ≡ false }
        ensures stands { StandsFor (⟦<PlainBook<V> as Book<V>>⟧.account self.now) k (V.keeping result.now) }
        ensures calm { (known (⟦<PlainBook<V> as Book<V>>⟧.account self.now) (keeper_spot (⟦<PlainBook<V> as Book<V>>⟧.account self.now).profile k)).duty ≡ None }
    {
        match &self.keepers[k] {
            Some(v) => v,
            None => unreachable!(),
        }
    }

    /// The class of the block `b` of nano, and 0 where it has none yet.
    pub fn class_word(&self, b: u64) -> u64
        requires { b < (⟦<PlainBook<V> as Book<V>>⟧.account self.now).profile.nano }
        ensures { result ≡ class_of (⟦<PlainBook<V> as Book<V>>⟧.account self.now) b }
    {
        self.classes[b as usize]
    }

    /// The word of the slot `j` of the block `b` of nano: 2 and the caller where its light is held, else 1 where its pair is live,
    /// and 0 where it isn't.
    pub fn slot_word(&self, b: u64, j: u64) -> u64
        requires block { b < (⟦<PlainBook<V> as Book<V>>⟧.account self.now).profile.nano }
        requires slot { j < 1024 }
        ensures { result ≡ slot_word (⟦<PlainBook<V> as Book<V>>⟧.account self.now) b j }
    {
        self.slots[word_place(b, j)]
    }

    /// Makes room for `n` entries more. Pairs need none. A history has at most 2^58
    /// entries: for more there is no memory.
    pub fn reserve(&mut self, n: u64) -> Result<(), AllocError>
        ensures ok { OnOk result (Reserves (⟦<PlainBook<V> as Book<V>>⟧.account self.old) n (⟦<PlainBook<V> as Book<V>>⟧.account self.new)) }
        ensures err { OnErr result (⟦<PlainBook<V> as Book<V>>⟧.account self.new ≡ ⟦<PlainBook<V> as Book<V>>⟧.account self.old) }
    {
        let len = self.history.len();
        if n > (1 << 58) - len as u64 {
            return Err(AllocError);
        }
        let n = n as usize;
        if n > self.limit - len {
            self.history.reserve(n)?;
            self.limit = len + n;
        }
        Ok(())
    }

    /// The book acts as another caller: its record and its hand are those of that one.
    pub fn act_as(&mut self, caller: u32)
        requires nothing_held { HoldsNothing (⟦<PlainBook<V> as Book<V>>⟧.account self.old) }
        requires caller { caller < (⟦<PlainBook<V> as Book<V>>⟧.account self.old).profile.callers }
        ensures { ActsAs (⟦<PlainBook<V> as Book<V>>⟧.account self.old) caller (⟦<PlainBook<V> as Book<V>>⟧.account self.new) }
    {
        self.caller = caller;
    }

    /// The pair at `a` in the hand of `from` is in that of `to` from now on.
    pub fn give(&mut self, from: u32, to: u32, a: u64)
        requires { CanGive (⟦<PlainBook<V> as Book<V>>⟧.account self.old) from to a }
        ensures { Gives (⟦<PlainBook<V> as Book<V>>⟧.account self.old) from to a (⟦<PlainBook<V> as Book<V>>⟧.account self.new) }
    {
        of_histories();
        live_bytes_fit_the_space();
        let _ = from;
        set_owner(&mut self.quanta, a, to as u8);
    }

    /// The history and the room for more are at most 2^58 entries; each live block is in exactly one hand, and hands hold live blocks
    /// alone; blocks of nano are of their class; and a light whose pair is live is held by its owner.
    pub fn keeps_rule(&self)
        ensures { KeepsRule (⟦<PlainBook<V> as Book<V>>⟧.account self.now) }
    {}

    /// With nothing held no duty stands anywhere, so the history is a lawful one.
    pub fn is_lawful(&self)
        requires { HoldsNothing (⟦<PlainBook<V> as Book<V>>⟧.account self.now) }
        ensures { IsLawfulHistory (⟦<PlainBook<V> as Book<V>>⟧.account self.now).profile (⟦<PlainBook<V> as Book<V>>⟧.account self.now).seen }
    {
        of_histories();
    }
}

impl<V: Keep + Drop> PlainBook<V> {
    /// A book of these keepers, one of each number, in order. They stand for the places of the opening state in the space of the
    /// last one. Caller 0 is the first that it acts as.
    pub fn new(alloc: Global, p: &Profile, keepers: Vec<V>) -> Result<PlainBook<V>, AllocError>
        requires limits { IsWithinLimits p.now }
        requires stand { StandAtFirst p.now (map V.keeping keepers.items) }
        ensures { IfOk result (λ b. ⟦<PlainBook<V> as Book<V>>⟧.account b ≡ opening_account p.now (last_site (map V.keeping keepers.items))) }
    {
        let last = keepers.len() - 1;
        let site = Snapshot::of(&keepers[last]);
        let held = Vec::with_capacity(alloc, keepers.len())?;
        let keepers = at_home(alloc, keepers)?;
        let quanta = Vec::from_elem(alloc, 0, p.pages as usize * 1024)?;
        let classes = Vec::from_elem(alloc, 0, p.nano as usize)?;
        let slots = Vec::from_elem(alloc, 0, p.nano as usize * 1024)?;
        Ok(PlainBook {
            profile: *p,
            caller: 0,
            history: Vec::new(alloc),
            limit: 0,
            held,
            keepers,
            quanta,
            classes,
            slots,
            holds: 0,
            founds: 0,
            found: None,
            site,
        })
    }
}

/// Each value in an option.
fn at_home<V: Drop>(alloc: Global, values: Vec<V>) -> Result<Vec<Option<V>>, AllocError>
    ensures { IfOk result (λ r. r.items ≡ map Some values.items) }
{
    values.into_iter().map(|v| Some(v)).collect(alloc)
}
