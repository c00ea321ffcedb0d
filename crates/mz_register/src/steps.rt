//! The single steps, each one call of the table.
ghost use Rattle.std.specs.Prelude.{◌≡◌, ◌≢◌, ◌+◌, ◌<◌, None};
ghost use Rattle.atomic_table.specs.Table.{step, rest};
ghost use mathlib.Core.Option.{none};
ghost use Rattle.mz_book.specs.Keepers.{keeper_count};
ghost use Rattle.mz_desk.specs.Words.{lock_place, slot_place, class_place};
ghost use Rattle.mz_desk.specs.Views.{freed};
ghost use Rattle.mz_desk.specs.Needs.{CanLock, CanLook, CanDraw, CanLight, CanUnlight, CanClass};
ghost use Rattle.mz_desk.specs.Steps.{TriesLock, Draws, TriesLight, StoresLight, TriesClass};
ghost use Rattle.mz_register.specs.Seats.{IsSeatOf, Takes, CanPutBack};

use crate::register::Register;
use atomic_table::Seat;
use mz_desk::law::{
    DrawTicket, FreeLock, Look, SettleClass, StoreLight, TakeLight, TakeLock, WhichEvent, WhichSlot,
};
use mz_desk::laws::steps;
use mz_desk::view::View;
use mz_events::{Event, Keep};
use std::marker::Brand;

impl<V: Keep + Drop> Register<V> {
    // Tries the lock of the keeper k once, and answers the word as it was.
    pub(crate) fn try_lock(&self, seat: &mut Seat<Option<V>, View>, caller: u32, k: usize) -> u64
        requires one { IsSeatOf self.now.table.shared.table_id self.now.opening.profile seat.old }
        requires caller { caller ≡ seat.old.me.0.caller }
        requires can { CanLock seat.old.me.0 k }
        ensures table { seat.new.table_id ≡ seat.old.table_id }
        ensures tries { TriesLock (step self.now.table.shared.table_id.slots (lock_place k) 0 (caller + 1) none) seat.old.me result seat.new.me }
    {
        steps::take_lock::<V>();
        self.table
            .shared
            .compare_exchange::<TakeLock>(seat, k + 1, 0, u64::from(caller) + 1)
    }

    // Takes the keeper that the seat has locked.
    pub(crate) fn take(&self, seat: &mut Seat<Option<V>, View>, k: usize) -> V
        requires one { IsSeatOf self.now.table.shared.table_id self.now.opening.profile seat.old }
        requires can { CanLook seat.old.me.0 k }
        ensures table { seat.new.table_id ≡ seat.old.table_id }
        ensures takes { Takes V.keeping seat.old.me k result seat.new.me }
    {
        steps::look::<V>();
        self.table.shared.load::<Look>(seat, 0);
        match self.table.shared.exchange(seat, k, None) {
            Some(keeper) => keeper,
            None => unreachable!(),
        }
    }

    fn draw_as<E: WhichEvent>(&self, seat: &mut Seat<Option<V>, View>, event: Event) -> u64
        requires which { E.event ≡ event }
        requires one { IsSeatOf self.now.table.shared.table_id self.now.opening.profile seat.old }
        requires can { CanDraw seat.old.me.0 event }
        ensures table { seat.new.table_id ≡ seat.old.table_id }
        ensures draws { Draws event (step self.now.table.shared.table_id.slots 0 1 0 none) seat.old.me result seat.new.me }
    {
        steps::draw_ticket::<V>();
        self.table.shared.fetch_add::<DrawTicket<E>>(seat, 0, 1)
    }

    // Makes an event the next entry, and answers its ticket.
    pub(crate) fn draw(&self, seat: &mut Seat<Option<V>, View>, event: Event) -> u64
        requires one { IsSeatOf self.now.table.shared.table_id self.now.opening.profile seat.old }
        requires can { CanDraw seat.old.me.0 event }
        ensures table { seat.new.table_id ≡ seat.old.table_id }
        ensures draws { Draws event (step self.now.table.shared.table_id.slots 0 1 0 none) seat.old.me result seat.new.me }
    {
        self.draw_as::<Brand>(seat, event)
    }

    // Puts the keeper back that the seat took last, and frees its lock.
    pub(crate) fn put_back(&self, seat: &mut Seat<Option<V>, View>, k: usize, keeper: V)
        requires one { IsSeatOf self.now.table.shared.table_id self.now.opening.profile seat.old }
        requires exists { k < keeper_count self.now.opening.profile }
        requires can { CanPutBack V.keeping seat.old.me k keeper }
        ensures table { seat.new.table_id ≡ seat.old.table_id }
        ensures view { seat.new.me.0 ≡ freed seat.old.me.0 k }
        ensures carried { seat.new.me.1 ≡ rest seat.old.me.1 }
    {
        steps::free_lock::<V>();
        let old = self.table.shared.exchange(seat, k, Some(keeper));
        let None = old else { unreachable!() };
        self.table.shared.store::<FreeLock>(seat, k + 1, 0);
    }

    // Where the word of a slot stands.
    fn slot_place(&self, b: u64, j: u64) -> usize
        requires block { b < self.now.opening.profile.nano }
        requires slot { j < 1024 }
        ensures { result ≡ slot_place self.now.opening.profile b j }
    {
        self.keepers + 1 + self.opening.profile.nano as usize + (b * 1024 + j) as usize
    }

    // Where the class word of a block stands.
    fn class_place(&self, b: u64) -> usize
        requires { b < self.now.opening.profile.nano }
        ensures { result ≡ class_place self.now.opening.profile b }
    {
        self.keepers + 1 + b as usize
    }

    fn try_light_as<S: WhichSlot>(
        &self,
        seat: &mut Seat<Option<V>, View>,
        caller: u32,
        b: u64,
        j: u64,
        expect: u64,
    ) -> u64
        requires which { (S.block ≡ b) × (S.slot ≡ j) }
        requires one { IsSeatOf self.now.table.shared.table_id self.now.opening.profile seat.old }
        requires caller { caller ≡ seat.old.me.0.caller }
        requires can { CanLight seat.old.me.0 b j expect }
        ensures table { seat.new.table_id ≡ seat.old.table_id }
        ensures tries { TriesLight b j (step self.now.table.shared.table_id.slots (slot_place self.now.opening.profile b j) expect (2 + caller) none) seat.old.me result seat.new.me }
    {
        steps::take_light::<V>();
        let place = self.slot_place(b, j);
        self.table
            .shared
            .compare_exchange::<TakeLight<S>>(seat, place, expect, 2 + u64::from(caller))
    }

    // Tries the word of a slot once, and answers it as it was.
    pub(crate) fn try_light(
        &self,
        seat: &mut Seat<Option<V>, View>,
        caller: u32,
        b: u64,
        j: u64,
        expect: u64,
    ) -> u64
        requires one { IsSeatOf self.now.table.shared.table_id self.now.opening.profile seat.old }
        requires caller { caller ≡ seat.old.me.0.caller }
        requires can { CanLight seat.old.me.0 b j expect }
        ensures table { seat.new.table_id ≡ seat.old.table_id }
        ensures tries { TriesLight b j (step self.now.table.shared.table_id.slots (slot_place self.now.opening.profile b j) expect (2 + caller) none) seat.old.me result seat.new.me }
    {
        self.try_light_as::<Brand>(seat, caller, b, j, expect)
    }

    fn free_light_as<S: WhichSlot>(
        &self,
        seat: &mut Seat<Option<V>, View>,
        b: u64,
        j: u64,
        word: u64,
    )
        requires which { (S.block ≡ b) × (S.slot ≡ j) }
        requires one { IsSeatOf self.now.table.shared.table_id self.now.opening.profile seat.old }
        requires exists { (b < self.now.opening.profile.nano) × (j < 1024) }
        requires can { CanUnlight seat.old.me.0 b j word }
        ensures table { seat.new.table_id ≡ seat.old.table_id }
        ensures stores { StoresLight b j (step self.now.table.shared.table_id.slots (slot_place self.now.opening.profile b j) word 0 none) seat.old.me word seat.new.me }
    {
        steps::store_light::<V>();
        let place = self.slot_place(b, j);
        self.table.shared.store::<StoreLight<S>>(seat, place, word);
    }

    // Stores the word of a slot whose light the seat holds.
    pub(crate) fn free_light(&self, seat: &mut Seat<Option<V>, View>, b: u64, j: u64, word: u64)
        requires one { IsSeatOf self.now.table.shared.table_id self.now.opening.profile seat.old }
        requires exists { (b < self.now.opening.profile.nano) × (j < 1024) }
        requires can { CanUnlight seat.old.me.0 b j word }
        ensures table { seat.new.table_id ≡ seat.old.table_id }
        ensures stores { StoresLight b j (step self.now.table.shared.table_id.slots (slot_place self.now.opening.profile b j) word 0 none) seat.old.me word seat.new.me }
    {
        self.free_light_as::<Brand>(seat, b, j, word);
    }

    fn try_class_as<S: WhichSlot>(
        &self,
        seat: &mut Seat<Option<V>, View>,
        b: u64,
        class: u64,
    ) -> u64
        requires which { S.block ≡ b }
        requires one { IsSeatOf self.now.table.shared.table_id self.now.opening.profile seat.old }
        requires can { CanClass seat.old.me.0 b class }
        ensures table { seat.new.table_id ≡ seat.old.table_id }
        ensures tries { TriesClass b (step self.now.table.shared.table_id.slots (class_place self.now.opening.profile b) 0 class none) seat.old.me result seat.new.me }
    {
        steps::settle_class::<V>();
        let place = self.class_place(b);
        self.table
            .shared
            .compare_exchange::<SettleClass<S>>(seat, place, 0, class)
    }

    // Tries the class word of a block once, and answers it as it was.
    pub(crate) fn try_class(&self, seat: &mut Seat<Option<V>, View>, b: u64, class: u64) -> u64
        requires one { IsSeatOf self.now.table.shared.table_id self.now.opening.profile seat.old }
        requires can { CanClass seat.old.me.0 b class }
        ensures table { seat.new.table_id ≡ seat.old.table_id }
        ensures tries { TriesClass b (step self.now.table.shared.table_id.slots (class_place self.now.opening.profile b) 0 class none) seat.old.me result seat.new.me }
    {
        self.try_class_as::<Brand>(seat, b, class)
    }
}
