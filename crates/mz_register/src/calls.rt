//! What a caller does with its pass.
ghost use Rattle.std.specs.Prelude.{◌≡◌, ◌≤◌, length, take, drop, ◌++◌, IfOk, IfErr};
ghost use Rattle.mz_events.specs.Changes.{one_for};
ghost use Rattle.mz_book.specs.Account.{StandsFor};
ghost use Rattle.mz_book.specs.Calls.{CanHold, Gains, Holds, CanNote, Notes, CanRelease, Releases, CanSettle, Settles, CanHoldLight, HoldsLight, CanReleaseLight, ReleasesLight};
ghost use Rattle.mz_book.specs.Exchanges.{class_place, slot_place, Clashes};
ghost use Rattle.mz_register.specs.Passes.{IsOf};
ghost use Rattle.mz_register.specs.Accounts.{pass_account, pass_exchanges, WinsOne, WinsAtOnce, FindsTaken};

use crate::find::find;
use crate::pass::{Pass, Taken};
use crate::register::Register;
use atomic_table::Seat;
use mz_book::laws::slots::lights_are_of_slots;
use mz_book::{Asked, Found, Light};
use mz_desk::laws::of_histories;
use mz_desk::view::View;
use mz_events::laws::entries::zones_after_an_event;
use mz_events::{Entry, Event, Keep};
use std::sync::Wait;

// The slots that the seat took last go behind the others.
fn spin<V>(seat: &mut Seat<Option<V>, View>, n: usize)
    requires { n ≤ length seat.old.me.1 }
    ensures table { seat.new.table_id ≡ seat.old.table_id }
    ensures view { seat.new.me.0 ≡ seat.old.me.0 }
    ensures carried { seat.new.me.1 ≡ drop n seat.old.me.1 ++ take n seat.old.me.1 }
{
    for i in 0..n {
        seat.turn();
    }
}

// The word of a slot whose light is free.
fn word_of(live: bool) -> u64
    ensures { result ≡ one_for live }
{
    if live { 1 } else { 0 }
}

impl<V: Keep + Drop> Pass<V> {
    pub(crate) fn hold<R: Wait>(&mut self, rt: &R, register: &Register<V>, k: usize) -> V
        requires of { IsOf register.now.table.shared.table_id register.now.opening.profile (pass_account self.old) }
        requires can { CanHold (pass_account self.old) k }
        ensures table { self.new.seat.table_id ≡ self.old.seat.table_id }
        ensures holds { Holds (pass_account self.old) k (pass_account self.new) }
        ensures stands { StandsFor (pass_account self.new) k (V.keeping result) }
        ensures wins { WinsOne (pass_exchanges self.old) (pass_exchanges self.new) }
    {
        of_histories();
        let keeper = register.hold(rt, &mut self.seat, self.caller, k);
        self.held.push_reserved(k);
        self.holds = self.holds.saturating_add(1);
        keeper
    }

    pub(crate) fn try_hold(&mut self, register: &Register<V>, k: usize) -> Result<V, Taken>
        requires of { IsOf register.now.table.shared.table_id register.now.opening.profile (pass_account self.old) }
        requires can { CanHold (pass_account self.old) k }
        ensures table { self.new.seat.table_id ≡ self.old.seat.table_id }
        ensures gains { IfOk result (λ v. Gains (pass_account self.old) k (pass_account self.old).holds (pass_account self.new) × StandsFor (pass_account self.new) k (V.keeping v)) }
        ensures wins { IfOk result (λ _. WinsAtOnce (pass_exchanges self.old) (pass_exchanges self.new)) }
        ensures taken { IfErr result (λ t. FindsTaken (pass_account self.old) (pass_exchanges self.old) k t.word (pass_account self.new) (pass_exchanges self.new)) }
    {
        of_histories();
        match register.try_hold_once(&mut self.seat, self.caller, k) {
            Ok(keeper) => {
                self.held.push_reserved(k);
                Ok(keeper)
            }
            Err(word) => Err(Taken { word }),
        }
    }

    pub(crate) fn note(&mut self, register: &Register<V>, event: Event) -> u64
        requires of { IsOf register.now.table.shared.table_id register.now.opening.profile (pass_account self.old) }
        requires can { CanNote (pass_account self.old) event }
        ensures table { self.new.seat.table_id ≡ self.old.seat.table_id }
        ensures notes { Notes (pass_account self.old) event result (pass_account self.new) }
    {
        of_histories();
        zones_after_an_event();
        let ticket = register.draw(&mut self.seat, event);
        self.noted.push_reserved(Entry {
            ticket,
            caller: self.caller,
            event,
        });
        ticket
    }

    pub(crate) fn release(&mut self, register: &Register<V>, k: usize, keeper: V)
        requires of { IsOf register.now.table.shared.table_id register.now.opening.profile (pass_account self.old) }
        requires can { CanRelease (pass_account self.old) k }
        requires stands { StandsFor (pass_account self.old) k (V.keeping keeper) }
        ensures table { self.new.seat.table_id ≡ self.old.seat.table_id }
        ensures releases { Releases (pass_account self.old) k (pass_account self.new) }
    {
        let i = find(self.held.as_slice(), k);
        let behind = self.held.len() - 1 - i;
        spin(&mut self.seat, behind);
        register.put_back(&mut self.seat, k, keeper);
        spin(&mut self.seat, i);
        self.held.remove(i);
    }

    pub(crate) fn settle(&mut self, register: &Register<V>, b: u64, class: u64) -> Result<(), Found>
        requires of { IsOf register.now.table.shared.table_id register.now.opening.profile (pass_account self.old) }
        requires can { CanSettle (pass_account self.old) b class }
        ensures table { self.new.seat.table_id ≡ self.old.seat.table_id }
        ensures settles { Settles (pass_account self.old) b class result (pass_account self.new) }
        ensures clash { IfErr result (λ f. Clashes (pass_account self.old) (pass_exchanges self.old) (class_place (pass_account self.old).profile b) 0 f.word (pass_exchanges self.new)) }
    {
        let word = register.try_class(&mut self.seat, b, class);
        if word == 0 || word == class {
            return Ok(());
        }
        self.founds = self.founds.saturating_add(1);
        self.found = Some(Asked::Settle { block: b, class });
        Err(Found { word })
    }

    pub(crate) fn hold_light(
        &mut self,
        register: &Register<V>,
        b: u64,
        j: u64,
        expect: u64,
    ) -> Result<Light, Found>
        requires of { IsOf register.now.table.shared.table_id register.now.opening.profile (pass_account self.old) }
        requires can { CanHoldLight (pass_account self.old) b j expect }
        ensures table { self.new.seat.table_id ≡ self.old.seat.table_id }
        ensures holds { HoldsLight (pass_account self.old) b j expect result (pass_account self.new) }
        ensures clash { IfErr result (λ f. Clashes (pass_account self.old) (pass_exchanges self.old) (slot_place (pass_account self.old).profile b j) expect f.word (pass_exchanges self.new)) }
    {
        lights_are_of_slots();
        let word = register.try_light(&mut self.seat, self.caller, b, j, expect);
        if word == expect {
            return Ok(Light::taken(b, j));
        }
        self.founds = self.founds.saturating_add(1);
        self.found = Some(Asked::HoldLight {
            block: b,
            slot: j,
            expect,
        });
        Err(Found { word })
    }

    pub(crate) fn release_light(&mut self, register: &Register<V>, l: Light, live: bool)
        requires of { IsOf register.now.table.shared.table_id register.now.opening.profile (pass_account self.old) }
        requires can { CanReleaseLight (pass_account self.old) l live }
        ensures table { self.new.seat.table_id ≡ self.old.seat.table_id }
        ensures releases { ReleasesLight (pass_account self.old) l (pass_account self.new) }
    {
        register.free_light(&mut self.seat, l.block(), l.slot(), word_of(live));
    }
}
