//! The spots of a state.
ghost use Rattle.std.specs.Prelude.{◌≡◌, ◌++◌, ◌∷◌, [], map, IfOk, OnOk};
ghost use Rattle.std.specs.List.{range_with_len};
ghost use Rattle.mz_events.specs.declared.place.Place.TheVariants.{Tiny as tiny, Small as small};
ghost use Rattle.mz_events.specs.Places.{keeper_at, same_place as one_place, same_spot, spot_at, spot_of, places_of as all_places};
ghost use Rattle.mz_events.specs.Effect.{touched as touched_by};
ghost use Rattle.mz_spots.specs.Keys.{spot_of_key, spots_of};
ghost use Rattle.mz_spots.specs.Indexes.{numbers_of};

use mz_base::{PAGE, Profile};
use mz_events::{Event, Place};
use std::alloc::{AllocError, Global};

/// Where a state keeps a value: a place that has a keeper, or a page of nano.
#[derive(Clone, Copy, Debug, PartialEq, Eq)]
pub enum Key {
    Keeper(Place),
    Page(u64),
}

impl Key {
    /// The spot of a place; of nano, that of the page in which the address lies.
    pub fn at(k: Place, a: u64) -> Key
        ensures { spot_of_key result ≡ spot_at k a }
    {
        match k {
            Place::Nano => Key::Page(a / PAGE),
            _ => Key::Keeper(k),
        }
    }

    /// The spot of a place that isn't nano.
    pub fn of(k: Place) -> Key
        ensures { spot_of_key result ≡ spot_of k }
    {
        Key::at(k, 0)
    }

    // Numbers that tell spots apart: that of the kind, and two more.
    pub(crate) fn numbers(self) -> (u64, (u64, u64))
        ensures { result ≡ numbers_of (spot_of_key self) }
    {
        match self {
            Key::Keeper(Place::Pages) => (0, (0, 0)),
            Key::Keeper(Place::Tiny { zone, mag }) => (1, (zone as u64, mag as u64)),
            Key::Keeper(Place::TinyDepot { zone }) => (2, (zone as u64, 0)),
            Key::Keeper(Place::Small { zone, mag }) => (3, (zone as u64, mag as u64)),
            Key::Keeper(Place::SmallDepot { zone }) => (4, (zone as u64, 0)),
            Key::Keeper(Place::Large { zone }) => (5, (zone as u64, 0)),
            Key::Keeper(Place::Nano) => (6, (0, 0)),
            Key::Page(i) => (7, (i, 0)),
        }
    }

    /// Whether the two are one.
    pub fn is(self, other: Key) -> bool
        ensures { result ≡ same_spot (spot_of_key self) (spot_of_key other) }
    {
        match (self, other) {
            (Key::Keeper(j), Key::Keeper(k)) => is_same_place(j, k),
            (Key::Page(i), Key::Page(j)) => i == j,
            _ => false,
        }
    }
}

/// Whether two places are one.
pub fn is_same_place(j: Place, k: Place) -> bool
    ensures { result ≡ one_place j k }
{
    match (j, k) {
        (Place::Pages, Place::Pages) => true,
        (Place::Tiny { zone: z, mag: m }, Place::Tiny { zone: y, mag: n }) => z == y && m == n,
        (Place::TinyDepot { zone: z }, Place::TinyDepot { zone: y }) => z == y,
        (Place::Small { zone: z, mag: m }, Place::Small { zone: y, mag: n }) => z == y && m == n,
        (Place::SmallDepot { zone: z }, Place::SmallDepot { zone: y }) => z == y,
        (Place::Large { zone: z }, Place::Large { zone: y }) => z == y,
        (Place::Nano, Place::Nano) => true,
        _ => false,
    }
}

/// The spots of the places of a zone.
pub fn spots_of_zone(alloc: Global, p: &Profile, zone: u32) -> Result<Vec<Key>, AllocError>
    ensures { IfOk result (λ keys. spots_of keys.items ≡ map spot_of (all_places p.now zone)) }
{
    let mut keys = Vec::new(alloc);
    push_tiny(&mut keys, p.magazines, zone)?;
    keys.push(Key::Keeper(Place::TinyDepot { zone }))?;
    push_small(&mut keys, p.magazines, zone)?;
    keys.push(Key::Keeper(Place::SmallDepot { zone }))?;
    keys.push(Key::Keeper(Place::Large { zone }))?;
    Ok(keys)
}

// Appends the spots of so many magazines of tiny regions.
fn push_tiny(keys: &mut Vec<Key>, count: u32, zone: u32) -> Result<(), AllocError>
    ensures { OnOk result (spots_of keys.new.items ≡ spots_of keys.old.items ++ map (λ m. keeper_at (tiny zone m)) (range_with_len 0 count)) }
{
    for mag in 0..count {
        keys.push(Key::Keeper(Place::Tiny { zone, mag }))?;
    }
    Ok(())
}

// Appends the spots of so many magazines of small regions.
fn push_small(keys: &mut Vec<Key>, count: u32, zone: u32) -> Result<(), AllocError>
    ensures { OnOk result (spots_of keys.new.items ≡ spots_of keys.old.items ++ map (λ m. keeper_at (small zone m)) (range_with_len 0 count)) }
{
    for mag in 0..count {
        keys.push(Key::Keeper(Place::Small { zone, mag }))?;
    }
    Ok(())
}

/// The spots that an event touches.
pub fn touched(alloc: Global, p: &Profile, e: &Event) -> Result<Vec<Key>, AllocError>
    ensures { IfOk result (λ keys. spots_of keys.items ≡ touched_by p.now e.now) }
{
    match *e {
        Event::Take { k, .. } | Event::Back { k, .. } => {
            two(alloc, Key::of(k), Key::of(Place::Pages))
        }
        Event::Move { from, to, .. } => two(alloc, Key::of(from), Key::of(to)),
        Event::New { k, a, .. }
        | Event::End { k, a, .. }
        | Event::Size { k, a, .. }
        | Event::No { k, a, .. } => one(alloc, Key::at(k, a)),
        Event::Full { k, .. } => one(alloc, Key::of(k)),
        Event::Dry { zone, .. } => two(
            alloc,
            Key::of(Place::Pages),
            Key::of(Place::Large { zone }),
        ),
        Event::Open { zone } | Event::Shut { zone } => spots_of_zone(alloc, p, zone),
    }
}

fn one(alloc: Global, key: Key) -> Result<Vec<Key>, AllocError>
    ensures { IfOk result (λ keys. keys.items ≡ key ∷ []) }
{
    let mut keys = Vec::new(alloc);
    keys.push(key)?;
    Ok(keys)
}

fn two(alloc: Global, first: Key, second: Key) -> Result<Vec<Key>, AllocError>
    ensures { IfOk result (λ keys. keys.items ≡ first ∷ second ∷ []) }
{
    let mut keys = Vec::new(alloc);
    keys.push(first)?;
    keys.push(second)?;
    Ok(keys)
}
