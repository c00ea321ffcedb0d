//! The rule of a register's table, and its kinds of steps: names that the table's calls take, each with its definition.
ghost use Rattle.std.specs.Prelude.{ℕ};
ghost use Rattle.mz_events.specs.declared.event.Event.{Event as event};
ghost use Rattle.mz_events.specs.declared.event.Event.TheVariants.{Open};
ghost use Rattle.mz_desk.specs.Views.{first_view};
ghost use Rattle.mz_desk.specs.Keys.{opened_as};
ghost use Rattle.mz_desk.specs.Rule.{Rule};
ghost use Rattle.mz_desk.specs.Steps.{TriesLock, Looks, Draws, Frees, TriesLight, StoresLight, TriesClass};
ghost use Rattle.mz_desk.specs.Seats.{giver, given_view, joined_view, spent_view};

use crate::view::{Opening, View};
use atomic_table::{Join, Play, Split, TableRule};
use mz_events::Keep;
use std::marker::{Brand, PhantomData};

/// The register rule.
pub struct RegisterRule;

impl<V: Keep> TableRule<Option<V>, View, Opening<V>> for RegisterRule {
    ghost holds = { λ key. Rule V.keeping (opened_as V.keeping key) };

    ghost first = { λ key. first_view (opened_as V.keeping key) };
}

/// take-lock: an exchange of a keeper's lock word.
pub struct TakeLock;

impl<V: Keep> Play<Option<V>, View> for TakeLock {
    ghost then = { TriesLock };
}

/// look: a load of the counter, which takes the keeper that is locked.
pub struct Look;

impl<V: Keep> Play<Option<V>, View> for Look {
    ghost then = { Looks V.keeping };
}

/// Which event is noted. Each call picks it.
pub trait WhichEvent {
    ghost event: { event };
}

impl WhichEvent for Brand {
    ghost event = { Open 0 };
}

/// draw-ticket: one is added to the counter.
pub struct DrawTicket<E: WhichEvent>(PhantomData<E>);

impl<V: Keep, E: WhichEvent> Play<Option<V>, View> for DrawTicket<E> {
    ghost then = { Draws E.event };
}

/// free-lock: a store of a lock word, which gives the keeper back that was taken last.
pub struct FreeLock;

impl<V: Keep> Play<Option<V>, View> for FreeLock {
    ghost then = { Frees };
}

/// Which block and slot of nano a step is about. Each call picks it.
pub trait WhichSlot {
    ghost block: { ℕ };

    ghost slot: { ℕ };
}

impl WhichSlot for Brand {
    ghost block = { 0 };

    ghost slot = { 0 };
}

/// take-light: an exchange of a slot's word.
pub struct TakeLight<S: WhichSlot>(PhantomData<S>);

impl<V: Keep, S: WhichSlot> Play<Option<V>, View> for TakeLight<S> {
    ghost then = { TriesLight S.block S.slot };
}

/// store-light: a store of a slot's word.
pub struct StoreLight<S: WhichSlot>(PhantomData<S>);

impl<V: Keep, S: WhichSlot> Play<Option<V>, View> for StoreLight<S> {
    ghost then = { StoresLight S.block S.slot };
}

/// settle-class: an exchange of a block's class word.
pub struct SettleClass<S: WhichSlot>(PhantomData<S>);

impl<V: Keep, S: WhichSlot> Play<Option<V>, View> for SettleClass<S> {
    ghost then = { TriesClass S.block };
}

/// split-seat: seat 0 gives a number to another.
pub struct GiveSeat;

impl Split<View> for GiveSeat {
    ghost left = { giver };

    ghost right = { given_view };
}

/// join-seat: seat 0 takes in another.
pub struct TakeInSeat;

impl Join<View> for TakeInSeat {
    ghost both = { joined_view };

    ghost spent = { spent_view };
}
