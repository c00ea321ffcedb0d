//! Slots move from hand to hand.
ghost use Rattle.std.specs.Prelude.{◌≡◌, ℕ, ◌≤◌, ◌<◌, true, [], OnOk, OnErr, length, map, slice_index_or};
ghost use Rattle.mz_nano.specs.Lists.{In, without};
ghost use Rattle.mz_nano.specs.Rule.{held};
ghost use Rattle.mz_nano.specs.StepEffects.{word_loaded};
ghost use Rattle.mz_nano.specs.SeatMoves.{without_slot, bring, joined, lender, lent_view, class_in};
ghost use Rattle.mz_nano.specs.CallEffects.{IsSeatOf, IsAtRest, hand_ok};
ghost use Rattle.mz_nano.specs.SeatLists.{AllOf, AreAllOf, BelongsTo, hand_of};
ghost use Rattle.mz_nano.specs.Deals.{hands_of, counts_of, hand_at, Gives, TakesIn, LendsPart, moved, dealt, CanMove, CanDeal};

use crate::nano::Nano;
use crate::rule::{LendPart, PartWithSlot, TakeIn, WhichSlot};
use crate::seat::NanoSeat;
use crate::view::View;
use atomic_table::Seat;
use mz_ground::Parcel;
use std::alloc::{AllocError, Global};
use std::marker::Brand;

/// A slot goes from the hand of the seat `from` to that of the seat `to`.
#[derive(Clone, Copy, PartialEq, Eq, Debug)]
pub struct Deal {
    pub block: u64,
    pub slot: u64,
    pub from: u32,
    pub to: u32,
}

impl Nano {
    fn part_as<A: WhichSlot>(
        &self,
        seat: &mut Seat<Option<Parcel>, View>,
        block: u64,
        slot: u64,
    ) -> Seat<Option<Parcel>, View>
        requires pick { (A.block ≡ block) × (A.slot ≡ slot) }
        requires one { IsSeatOf self.now.table.shared.table_id self.now.table.shared.key seat.old }
        requires can { (seat.old.me.0.live ≡ true) × (2 ≤ seat.old.me.0.parts) × (seat.old.me.0.vacant ≡ []) }
        requires mine { (c : ℕ) × In (held A.block A.slot c) seat.old.me.0.hand }
        ensures table { (seat.new.table_id ≡ seat.old.table_id) × (result.table_id ≡ seat.old.table_id) }
        ensures left { seat.new.me ≡ (without_slot A.block A.slot seat.old.me.0, seat.old.me.1) }
        ensures right { result.me ≡ (bring A.block A.slot seat.old.me.0, []) }
    {
        let _blocks = self.blocks;
        let _slot = (block, slot);
        self.table.shared.split_seat::<PartWithSlot<A>>(seat)
    }

    fn part(
        &self,
        seat: &mut Seat<Option<Parcel>, View>,
        block: u64,
        slot: u64,
    ) -> Seat<Option<Parcel>, View>
        requires one { IsSeatOf self.now.table.shared.table_id self.now.table.shared.key seat.old }
        requires can { (seat.old.me.0.live ≡ true) × (2 ≤ seat.old.me.0.parts) × (seat.old.me.0.vacant ≡ []) }
        requires mine { (c : ℕ) × In (held block slot c) seat.old.me.0.hand }
        ensures table { (seat.new.table_id ≡ seat.old.table_id) × (result.table_id ≡ seat.old.table_id) }
        ensures left { seat.new.me ≡ (without_slot block slot seat.old.me.0, seat.old.me.1) }
        ensures right { result.me ≡ (bring block slot seat.old.me.0, []) }
    {
        self.part_as::<Brand>(seat, block, slot)
    }

    // A seat with a slot of the hand. The slot leaves the hand.
    fn give_slot(&self, s: &mut NanoSeat, block: u64, slot: u64) -> Seat<Option<Parcel>, View>
        requires one { BelongsTo self.now s.old }
        requires parts { 2 ≤ s.old.seat.me.0.parts }
        requires mine { (c : ℕ) × In (held block slot c) s.old.seat.me.0.hand }
        ensures table { (s.new.seat.table_id ≡ s.old.seat.table_id) × (result.table_id ≡ s.old.seat.table_id) }
        ensures given { (n : ℕ) × (s.new.seat.me.0 ≡ without_slot block slot (word_loaded s.old.seat.me.0 0 n)) × (result.me ≡ (bring block slot (word_loaded s.old.seat.me.0 0 n), [])) }
        ensures at_rest { IsAtRest result.me }
        ensures counts { counts_of s.new ≡ counts_of s.old }
    {
        let _blocks = self.blocks;
        let _word = self.load_block(&mut s.seat, 0);
        let temp = self.part(&mut s.seat, block, slot);
        s.held -= 1;
        temp
    }

    // Takes in a seat with its hand of `n` slots.
    fn take_in(&self, s: &mut NanoSeat, temp: Seat<Option<Parcel>, View>, n: u64)
        requires one { BelongsTo self.now s.old }
        requires two { IsSeatOf self.now.table.shared.table_id self.now.table.shared.key temp }
        requires at_rest { IsAtRest temp.me }
        requires count { n ≡ length temp.me.0.hand }
        ensures table { s.new.seat.table_id ≡ s.old.seat.table_id }
        ensures taken { (k : ℕ) × (s.new.seat.me.0 ≡ word_loaded (joined s.old.seat.me.0 temp.me.0) 0 k) }
        ensures counts { counts_of s.new ≡ counts_of s.old }
    {
        let _blocks = self.blocks;
        self.table.shared.join_seat::<TakeIn>(&mut s.seat, temp);
        let _word = self.load_block(&mut s.seat, 0);
        s.held += n;
    }

    // A seat with one part and an empty hand.
    fn lend(&self, s: &mut NanoSeat) -> Seat<Option<Parcel>, View>
        requires one { BelongsTo self.now s.old }
        requires parts { 2 ≤ s.old.seat.me.0.parts }
        ensures table { (s.new.seat.table_id ≡ s.old.seat.table_id) × (result.table_id ≡ s.old.seat.table_id) }
        ensures lent { (s.new.seat.me.0 ≡ lender s.old.seat.me.0) × (result.me ≡ (lent_view s.old.seat.me.0, [])) }
        ensures counts { counts_of s.new ≡ counts_of s.old }
    {
        let _blocks = self.blocks;
        self.table.shared.split_seat::<LendPart>(&mut s.seat)
    }

    // The slot leaves the hand of the seat at `i`, with one of its parts.
    fn give_at(
        &self,
        seats: &mut Vec<NanoSeat>,
        i: usize,
        block: u64,
        slot: u64,
    ) -> Seat<Option<Parcel>, View>
        requires within { i < length seats.old.items }
        requires can { (d : NanoSeat) → let s = slice_index_or seats.old.items i d in BelongsTo self.now s × (2 ≤ s.seat.me.0.parts) × ((c : ℕ) × In (held block slot c) (hand_of s)) }
        ensures gives { Gives self.now seats.old.items i block slot seats.new.items result }
    {
        self.give_slot(&mut seats[i], block, slot)
    }

    // The seat at `i` takes in another, with its hand of `n` slots.
    fn take_in_at(
        &self,
        seats: &mut Vec<NanoSeat>,
        i: usize,
        temp: Seat<Option<Parcel>, View>,
        n: u64,
    )
        requires within { i < length seats.old.items }
        requires can { (d : NanoSeat) → BelongsTo self.now (slice_index_or seats.old.items i d) }
        requires two { IsSeatOf self.now.table.shared.table_id self.now.table.shared.key temp }
        requires at_rest { IsAtRest temp.me }
        requires count { n ≡ length temp.me.0.hand }
        ensures takes { TakesIn self.now seats.old.items i temp seats.new.items }
    {
        self.take_in(&mut seats[i], temp, n);
    }

    // The seat at `i` lends one of its parts.
    fn lend_at(&self, seats: &mut Vec<NanoSeat>, i: usize) -> Seat<Option<Parcel>, View>
        requires within { i < length seats.old.items }
        requires can { (d : NanoSeat) → let s = slice_index_or seats.old.items i d in BelongsTo self.now s × (2 ≤ s.seat.me.0.parts) }
        ensures lends { LendsPart self.now seats.old.items i seats.new.items result }
    {
        self.lend(&mut seats[i])
    }

    // One move. Each seat has its two parts afterwards.
    fn move_slot(&self, seats: &mut Vec<NanoSeat>, deal: &Deal)
        requires all { AllOf self.now.table.shared.table_id self.now.table.shared.key seats.old.items }
        requires can { CanMove deal.now (hands_of seats.old.items) }
        ensures all { AllOf self.now.table.shared.table_id self.now.table.shared.key seats.new.items }
        ensures len { length seats.new.items ≡ length seats.old.items }
        ensures hands { hands_of seats.new.items ≡ moved deal.now (hands_of seats.old.items) }
        ensures counts { map counts_of seats.new.items ≡ map counts_of seats.old.items }
    {
        let (from, to) = (deal.from as usize, deal.to as usize);
        let temp = self.give_at(seats, from, deal.block, deal.slot);
        self.take_in_at(seats, to, temp, 1);
        let part = self.lend_at(seats, to);
        self.take_in_at(seats, from, part, 0);
    }

    /// Moves slots between hands, in order. `from` and `to` are places in the list, which are the
    /// numbers of the seats where all are there in order. Nothing else changes.
    ///
    /// The Err would be want of memory. This makes no room, and so answers Ok.
    pub fn deal(
        &mut self,
        alloc: Global,
        seats: &mut Vec<NanoSeat>,
        moves: &[Deal],
    ) -> Result<(), AllocError>
        requires all { AreAllOf self.old seats.old.items }
        requires can { CanDeal moves.now (hands_of seats.old.items) }
        ensures same { self.new ≡ self.old }
        ensures all { AreAllOf self.new seats.new.items }
        ensures hands { OnOk result (hands_of seats.new.items ≡ dealt moves.now (hands_of seats.old.items)) }
        ensures counts { map counts_of seats.new.items ≡ map counts_of seats.old.items }
        ensures refused { OnErr result (seats.new ≡ seats.old) }
    {
        let _alloc = alloc;
        for deal in moves {
            self.move_slot(seats, deal);
        }
        Ok(())
    }
}
