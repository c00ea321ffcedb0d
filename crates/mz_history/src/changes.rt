//! What an event leaves.
ghost use Rattle.std.specs.Prelude.{◌≡◌, ℕ, ◌+◌, ◌==◌, not, filter, None, OnOk, IfOk};
ghost use Rattle.mz_events.specs.State.{State, look_up, live_size};
ghost use Rattle.mz_events.specs.Places.{spot_at, spot_of};
ghost use Rattle.mz_events.specs.declared.place.Place.TheVariants.{Large as large_of};
ghost use Rattle.mz_events.specs.declared.event.Event.TheVariants as event;
ghost use Rattle.mz_events.specs.Rules.{first_broken};
ghost use Rattle.mz_events.specs.Duties.{back_of_oldest as oldest_back};
ghost use Rattle.mz_events.specs.Effect.{after, values_after, zones_after};
ghost use Rattle.mz_history.specs.Ready.{CanTake, CanGive, CanMove, IsReady};
ghost use Rattle.mz_base.specs.Space.{run_at};

use crate::books::Books;
use mz_base::Profile;
use mz_events::laws::entries::{lawful_entries_split, states_split};
use mz_events::laws::events::{what_an_event_changes, when_an_event_fits};
use mz_events::laws::separation::{live_blocks_are_ascending, separation};
use mz_events::{Event, Place};
use mz_spots::{Done, Key, Slots, touched};
use std::alloc::{AllocError, Global};

impl Books {
    /// The state that an event of a caller leaves.
    pub(crate) fn apply(self, caller: u32, e: &Event) -> Result<Books, AllocError>
        requires { first_broken self.profile self.state caller e.now ≡ None }
        ensures { IfOk result (λ b. b ≡ record { profile = self.profile; state = after self.profile self.state caller e.now }) }
    {
        lawful_entries_split();
        states_split();
        when_an_event_fits();
        separation();
        live_blocks_are_ascending();
        let Books {
            alloc,
            profile,
            slots,
            mut zones,
            entries,
            greatest,
            no_pages,
            no_runs,
            no_blocks,
        } = self;
        let count = one_more(entries)?;
        let slots = change(slots, alloc, &profile, Done { caller, event: *e })?;
        change_zones(&mut zones, e)?;
        let used = slots.used();
        Ok(Books {
            alloc,
            profile,
            slots,
            zones,
            entries: count,
            greatest: greatest.max(used),
            no_pages,
            no_runs,
            no_blocks,
        })
    }
}

// One more entry; one too many for 64 bits is a want of memory.
fn one_more(entries: u64) -> Result<u64, AllocError>
    ensures { IfOk result (λ count. count ≡ entries + 1) }
{
    match entries.checked_add(1) {
        Some(count) => Ok(count),
        None => Err(AllocError),
    }
}

// What an entry makes of the slots that it touches.
fn change(slots: Slots, alloc: Global, p: &Profile, done: Done) -> Result<Slots, AllocError>
    requires { IsReady slots done.event }
    ensures { IfOk result (λ t. (s : State) → s.values ≡ slots → t ≡ values_after p.now s done.caller done.event) }
{
    what_an_event_changes();
    match done.event {
        Event::Take { k, first, pages } => take_run(slots, alloc, p, done, k, first, pages),
        Event::Back { k, first, pages } => back_run(slots, alloc, p, done, k, first, pages),
        Event::Move { first, from, to } => move_region(slots, alloc, p, done, first, from, to),
        Event::New { k, a, s, .. } => slots.make(alloc, done, k, a, s),
        Event::End { k, a, s } => slots.end(alloc, done, k, a, s),
        Event::Size { k, a, s, s2 } => slots.resize(alloc, done, k, a, s, s2),
        Event::Full { k, n, .. } => slots.full(alloc, done, k, n),
        Event::No { k, a, .. } => slots.note(alloc, Key::at(k, a), done, None),
        Event::Dry { zone, .. } => {
            let duty = oldest_of(&slots, zone);
            let keys = touched(alloc, p, &done.event)?;
            slots.note_all(alloc, &keys, done, duty)
        }
        Event::Open { .. } | Event::Shut { .. } => {
            let keys = touched(alloc, p, &done.event)?;
            slots.note_all(alloc, &keys, done, None)
        }
    }
}

// A place takes a run from the free pages.
fn take_run(
    slots: Slots,
    alloc: Global,
    p: &Profile,
    done: Done,
    k: Place,
    first: u64,
    pages: u64,
) -> Result<Slots, AllocError>
    requires is { done.event ≡ event.Take k first pages }
    requires ready { CanTake slots k (run_at first pages) }
    ensures { IfOk result (λ t. (s : State) → s.values ≡ slots → t ≡ values_after p.now s done.caller done.event) }
{
    what_an_event_changes();
    let _p = *p;
    let slots = slots.take(alloc, done, k, first, pages)?;
    let slots = slots.lend(alloc, done, k, first, pages)?;
    Ok(slots)
}

// A place gives a run back.
fn back_run(
    slots: Slots,
    alloc: Global,
    p: &Profile,
    done: Done,
    k: Place,
    first: u64,
    pages: u64,
) -> Result<Slots, AllocError>
    requires is { done.event ≡ event.Back k first pages }
    requires ready { CanGive slots k (run_at first pages) }
    ensures { IfOk result (λ t. (s : State) → s.values ≡ slots → t ≡ values_after p.now s done.caller done.event) }
{
    what_an_event_changes();
    let _p = *p;
    let slots = slots.give_back(alloc, done, k, first)?;
    let slots = slots.regain(alloc, done, k, first, pages)?;
    Ok(slots)
}

// A region goes from a magazine to its depot, or the other way.
fn move_region(
    slots: Slots,
    alloc: Global,
    p: &Profile,
    done: Done,
    first: u64,
    from: Place,
    to: Place,
) -> Result<Slots, AllocError>
    requires is { done.event ≡ event.Move first from to }
    requires ready { CanMove slots first from to }
    ensures { IfOk result (λ t. (s : State) → s.values ≡ slots → t ≡ values_after p.now s done.caller done.event) }
{
    what_an_event_changes();
    let _p = *p;
    let (slots, held) = slots.put_out(alloc, done, from, first)?;
    let slots = slots.put_in(alloc, done, to, held)?;
    Ok(slots)
}

// The way back of the oldest cached run of large of a zone.
fn oldest_of(slots: &Slots, zone: u32) -> Option<Event>
    ensures { result ≡ oldest_back (large_of zone) (look_up slots.now (spot_of (large_of zone))).kept.cached }
{
    let l = Place::Large { zone };
    match slots.find(Key::of(l)) {
        Some(slot) => slot.holding().back_of_oldest(l),
        None => None,
    }
}

// What an event makes of the open zones.
fn change_zones(zones: &mut Vec<u32>, e: &Event) -> Result<(), AllocError>
    ensures { OnOk result (zones.new.items ≡ zones_after zones.old.items e.now) }
{
    match *e {
        Event::Open { zone } => zones.insert(0, zone)?,
        Event::Shut { zone } => shut_zone(zones, zone),
        _ => (),
    }
    Ok(())
}

// The zone isn't open any more.
fn shut_zone(zones: &mut Vec<u32>, zone: u32)
    ensures { zones.new.items ≡ filter (λ y. not (y == zone)) zones.old.items }
{
    zones.retain(|open| is_another(open, zone));
}

fn is_another(open: &u32, zone: u32) -> bool
    ensures { result ≡ not (open.now == zone) }
{
    *open != zone
}
