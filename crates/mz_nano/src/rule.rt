//! The nano rule, and what each kind of step tells the seat that makes it.
//!
//! The rule is `specs/Rule.antt`. A step is one load, store or exchange of a word of the table; with it
//! the seat may take a place of the table, or give one back.
ghost use Rattle.mz_nano.specs.Rule.{Rule, first_view};
ghost use Rattle.mz_nano.specs.SeatMoves.{giver, given_view, lender, lent_view, without_slot, bring, joined, spent_view};
ghost use Rattle.std.specs.Prelude.{ℕ};
ghost use Rattle.mz_nano.specs.StepEffects.{LoadsBlock, GivesPlace, LoadsLink, PopsSlot, StoresLink, PushesSlot, ClaimsBlock, CutsSlot, MakesReady};

use crate::view::{Geometry, View};
use atomic_table::{Join, Play, Split, TableRule};
use mz_ground::Parcel;
use std::marker::{Brand, PhantomData};

/// The rule that holds between any two steps.
pub struct NanoRule;

impl TableRule<Option<Parcel>, View, Geometry> for NanoRule {
    ghost holds = { Rule };

    ghost first = { first_view };
}

/// `load-block`: a load of a block's word.
pub struct LoadBlock;

impl Play<Option<Parcel>, View> for LoadBlock {
    ghost then = { LoadsBlock };
}

/// `load-block`, which gives back the place of a slot that went to its hand.
pub struct GivePlace;

impl Play<Option<Parcel>, View> for GivePlace {
    ghost then = { GivesPlace };
}

/// `load-link`: a load of the link of the first slot of the word that was loaded last.
pub struct LoadLink;

impl Play<Option<Parcel>, View> for LoadLink {
    ghost then = { LoadsLink };
}

/// `pop-exchange`, which takes the place of the slot.
pub struct PopExchange;

impl Play<Option<Parcel>, View> for PopExchange {
    ghost then = { PopsSlot };
}

/// `store-link` of a slot in hand, whose place is taken.
pub struct StoreLink;

impl Play<Option<Parcel>, View> for StoreLink {
    ghost then = { StoresLink };
}

/// `push-exchange`, which gives the place of the slot back.
pub struct PushExchange;

impl Play<Option<Parcel>, View> for PushExchange {
    ghost then = { PushesSlot };
}

/// `claim`, which takes the block's page.
pub struct ClaimExchange;

impl Play<Option<Parcel>, View> for ClaimExchange {
    ghost then = { ClaimsBlock };
}

/// `store-link` of a slot of a claimed block, whose place is given and the next one taken.
pub struct StoreFreshLink;

impl Play<Option<Parcel>, View> for StoreFreshLink {
    ghost then = { CutsSlot };
}

/// `make-ready`, which gives the place of the rest of the page.
pub struct MakeReady;

impl Play<Option<Parcel>, View> for MakeReady {
    ghost then = { MakesReady };
}

/// `split-and-join`: a new seat with an empty hand and its two parts.
pub struct NewSeat;

impl Split<View> for NewSeat {
    ghost left = { giver };

    ghost right = { given_view };
}

/// `split-and-join`: a seat takes in another, with its hand and its parts.
pub struct TakeIn;

impl Join<View> for TakeIn {
    ghost both = { joined };

    ghost spent = { spent_view };
}

/// `split-and-join`: a new seat with an empty hand and one part.
pub struct LendPart;

impl Split<View> for LendPart {
    ghost left = { lender };

    ghost right = { lent_view };
}

/// Which slot goes with a split. Each call picks it.
pub trait WhichSlot {
    ghost block: { ℕ };

    ghost slot: { ℕ };
}

impl WhichSlot for Brand {
    ghost block = { 0 };

    ghost slot = { 0 };
}

/// `split-and-join`: a new seat with one slot of the hand and one part.
pub struct PartWithSlot<A: WhichSlot>(PhantomData<A>);

impl<A: WhichSlot> Split<View> for PartWithSlot<A> {
    ghost left = { without_slot A.block A.slot };

    ghost right = { bring A.block A.slot };
}
