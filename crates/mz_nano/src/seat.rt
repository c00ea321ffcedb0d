//! A seat, and the answers that it gets.
ghost use Rattle.std.specs.Prelude.{◌≡◌, None, length};
ghost use Rattle.mz_nano.specs.Rule.{Once};
ghost use Rattle.mz_nano.specs.CallEffects.{IsAtRest, is_at_rest-prop, once-prop};

use crate::slot::SlotSpan;
use crate::view::{Held, View};
use atomic_table::Seat;
use mz_ground::Parcel;

/// Why a pop gave no slot.
#[derive(Debug, Drop)]
pub enum Miss {
    /// Each block's word was loaded, and none was usable or unassigned.
    Exhausted,
    /// The exchange on the block's word found another word than it expected.
    Contended {
        block: u64,
        expected: u64,
        found: u64,
    },
}

/// A push whose exchange found another word than it expected. The slot comes back.
#[derive(Drop)]
pub struct Contended {
    pub slot: SlotSpan,
    pub expected: u64,
    pub found: u64,
}

/// What a thread pops and pushes with. Contracts see its hand, which is the list of the slots that
/// it was given and hasn't put back, and what it stores of its calls. By its type no slot is in the
/// hand twice.
///
/// Each count rises by one with a call, and stays at the greatest `u64` once there.
#[derive(Drop)]
pub struct NanoSeat {
    pub(crate) number: u32,
    pub(crate) tries: u64,
    pub(crate) misses: u64,
    pub(crate) missed: u64,
    pub(crate) popped: Option<Held>,
    // How many slots are in its hand.
    pub(crate) held: u64,
    pub(crate) seat: Seat<Option<Parcel>, View>,
    ghost count: { held ≡ length seat.me.0.hand },
    ghost at_rest: { IsAtRest seat.me } by { is_at_rest-prop seat.me },
    ghost once: { Once seat.me.0.hand } by { once-prop seat.me.0.hand },
}

impl NanoSeat {
    // A seat with an empty hand that made no call.
    pub(crate) fn new(number: u32, seat: Seat<Option<Parcel>, View>) -> NanoSeat
        requires empty { length seat.me.0.hand ≡ 0 }
        requires at_rest { IsAtRest seat.me }
        ensures number { result.number ≡ number }
        ensures counts { (result.tries ≡ 0) × (result.misses ≡ 0) × (result.missed ≡ 0) × (result.popped ≡ None) }
        ensures seat { result.seat ≡ seat }
    {
        NanoSeat {
            number,
            tries: 0,
            misses: 0,
            missed: 0,
            popped: None,
            held: 0,
            seat,
        }
    }

    /// Its number, from 0.
    pub fn number(&self) -> u32
        ensures { result ≡ self.now.number }
    {
        self.number
    }

    /// How many pops it made.
    pub fn tries(&self) -> u64
        ensures { result ≡ self.now.tries }
    {
        self.tries
    }

    /// How many of them were misses.
    pub fn misses(&self) -> u64
        ensures { result ≡ self.now.misses }
    {
        self.misses
    }

    /// The class of its last miss, or 0.
    pub fn missed(&self) -> u64
        ensures { result ≡ self.now.missed }
    {
        self.missed
    }

    /// The slot that its last pop that was Ok gave.
    pub fn popped(&self) -> Option<Held>
        ensures { result ≡ self.now.popped }
    {
        self.popped
    }

    pub(crate) fn into_seat(self) -> Seat<Option<Parcel>, View>
        ensures seat { result ≡ self.seat }
        ensures at_rest { IsAtRest result.me }
    {
        let NanoSeat {
            number: _,
            tries: _,
            misses: _,
            missed: _,
            popped: _,
            held: _,
            seat,
        } = self;
        seat
    }
}
