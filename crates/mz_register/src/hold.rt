//! A keeper is locked and taken.
ghost use Rattle.std.specs.Prelude.{◌≡◌, IfOk, IfErr};
ghost use Rattle.mz_desk.specs.Needs.{CanLock};
ghost use Rattle.mz_register.specs.Seats.{IsSeatOf, Locks, Gets, Misses};

use crate::register::Register;
use atomic_table::Seat;
use mz_desk::view::View;
use mz_events::Keep;
use std::sync::Wait;
use std::thread::yield_now;

impl<V: Keep + Drop> Register<V> {
    // Tries the lock of the keeper k until it is free. Other threads run between two tries.
    fn lock<R: Wait>(&self, rt: &R, seat: &mut Seat<Option<V>, View>, caller: u32, k: usize)
        requires one { IsSeatOf self.now.table.shared.table_id self.now.opening.profile seat.old }
        requires caller { caller ≡ seat.old.me.0.caller }
        requires can { CanLock seat.old.me.0 k }
        ensures table { seat.new.table_id ≡ seat.old.table_id }
        ensures locks { Locks seat.old.me k seat.new.me }
    {
        for _ in rt.forever() {
            if self.try_lock(seat, caller, k) == 0 {
                return;
            }
            yield_now();
        }
        unreachable!()
    }

    // Waits for the keeper k.
    pub(crate) fn hold<R: Wait>(
        &self,
        rt: &R,
        seat: &mut Seat<Option<V>, View>,
        caller: u32,
        k: usize,
    ) -> V
        requires one { IsSeatOf self.now.table.shared.table_id self.now.opening.profile seat.old }
        requires caller { caller ≡ seat.old.me.0.caller }
        requires can { CanLock seat.old.me.0 k }
        ensures table { seat.new.table_id ≡ seat.old.table_id }
        ensures gets { Gets V.keeping seat.old.me k result seat.new.me }
    {
        self.lock(rt, seat, caller, k);
        self.take(seat, k)
    }

    // Takes the keeper k if its lock is free, and else answers the word.
    pub(crate) fn try_hold_once(
        &self,
        seat: &mut Seat<Option<V>, View>,
        caller: u32,
        k: usize,
    ) -> Result<V, u64>
        requires one { IsSeatOf self.now.table.shared.table_id self.now.opening.profile seat.old }
        requires caller { caller ≡ seat.old.me.0.caller }
        requires can { CanLock seat.old.me.0 k }
        ensures table { seat.new.table_id ≡ seat.old.table_id }
        ensures gets { IfOk result (λ v. Gets V.keeping seat.old.me k v seat.new.me) }
        ensures at_once { IfOk result (λ _. seat.new.me.0.clashes ≡ seat.old.me.0.clashes) }
        ensures misses { IfErr result (λ word. Misses seat.old.me k word seat.new.me) }
    {
        let word = self.try_lock(seat, caller, k);
        if word == 0 {
            Ok(self.take(seat, k))
        } else {
            Err(word)
        }
    }
}
