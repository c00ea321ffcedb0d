//! The desk, at which a pass is a book.
ghost use Rattle.std.specs.Prelude.{◌≡◌, IfOk, IfErr};
ghost use Rattle.mz_book.specs.Account.{StandsFor};
ghost use Rattle.mz_book.specs.Calls.{CanHold, Gains, Holds};
ghost use Rattle.mz_register.specs.Passes.{IsOf};
ghost use Rattle.mz_register.specs.Accounts.{pass_account, at_desk, pass_exchanges, WinsOne, WinsAtOnce, FindsTaken};

use crate::pass::{Pass, Taken};
use crate::register::Register;
use mz_book::{Book, Found, Light};
use mz_events::{Event, Keep};
use std::sync::Wait;

/// A pass at its register, where it is a book. `hold` waits by trying again, and lets other threads run between two tries; nothing else
/// waits.
pub struct Desk<'a, V: Keep + Drop> {
    register: &'a Register<V>,
    pass: &'a mut Pass<V>,
    ghost table: { pass.now.seat.table_id ≡ register.now.table.shared.table_id },
    ghost profile: { pass.now.seat.me.0.profile ≡ register.now.opening.profile },
}

impl<'a, V: Keep + Drop> Book<V> for Desk<'a, V> {
    ghost use Rattle.mz_register.specs.Accounts.{pass_account, at_desk, pass_exchanges};
    ghost use Rattle.mz_register.specs.Orderly.{orderly, orderly_at};

    ghost account = { λ d. at_desk d.pass.ghost_name (pass_account d.pass.now) };

    ghost exchanges = { λ d. pass_exchanges d.pass.now };

    fn caller(&self) -> u32 {
        self.pass.caller()
    }

    /// Takes the keeper of number `k`. Of its exchanges just one finds the word that it expects, which is the lock of `k`: no other
    /// keeper is taken on the way.
    fn hold<R: Wait>(&mut self, rt: &R, k: usize) -> V
        requires { CanHold (⟦<Desk<'a, V> as Book<V>>⟧.account self.old) k }
        ensures holds { Holds (⟦<Desk<'a, V> as Book<V>>⟧.account self.old) k (⟦<Desk<'a, V> as Book<V>>⟧.account self.new) }
        ensures stands { StandsFor (⟦<Desk<'a, V> as Book<V>>⟧.account self.new) k (V.keeping result) }
        ensures wins { WinsOne (⟦<Desk<'a, V> as Book<V>>⟧.exchanges self.old) (⟦<Desk<'a, V> as Book<V>>⟧.exchanges self.new) }
    {
        self.pass.hold(rt, self.register, k)
    }

    fn note(&mut self, e: Event) -> u64 {
        self.pass.note(self.register, e)
    }

    fn release(&mut self, k: usize, v: V) {
        self.pass.release(self.register, k, v);
    }

    fn settle(&mut self, b: u64, class: u64) -> Result<(), Found> {
        self.pass.settle(self.register, b, class)
    }

    fn hold_light(&mut self, b: u64, j: u64, expect: u64) -> Result<Light, Found> {
        self.pass.hold_light(self.register, b, j, expect)
    }

    fn release_light(&mut self, l: Light, live: bool) {
        self.pass.release_light(self.register, l, live);
    }

    ghost orderly = { λ d. orderly_at d.pass.ghost_name (pass_account d.pass.now) (orderly d.pass.now) };
}

impl<V: Keep + Drop> Drop for Desk<'_, V> {
    fn drop(self)
        ensures { self.exit.1.0.now ≡ self.entry.pass.now }
    {
        let Desk {
            register: _,
            pass: _,
        } = self;
    }
}

impl<V: Keep + Drop> Register<V> {
    /// The desk at which the pass is a book. The pass is one of this register.
    pub fn desk<'a>(&'a self, pass: &'a mut Pass<V>) -> Desk<'a, V>
        requires { IsOf self.now.table.shared.table_id self.now.opening.profile (pass_account pass.old) }
        ensures same_reference { result.pass.ghost_name ≡ pass.entry.ghost_name }
        ensures account { ⟦<Desk<'a, V> as Book<V>>⟧.account result ≡ at_desk pass.entry.ghost_name (pass_account pass.old) }
    {
        Desk {
            register: self,
            pass,
        }
    }

    /// Takes the keeper of number `k`, which is above each one held, if its lock is free. `Taken` carries the word of the lock, which
    /// this call found: it isn't 0, and it shows another caller. The call makes one exchange. It doesn't wait, and isn't counted as a hold.
    pub fn try_hold(&self, pass: &mut Pass<V>, k: usize) -> Result<V, Taken>
        requires of { IsOf self.now.table.shared.table_id self.now.opening.profile (pass_account pass.old) }
        requires can { CanHold (pass_account pass.old) k }
        ensures gains { IfOk result (λ v. Gains (pass_account pass.old) k (pass_account pass.old).holds (pass_account pass.new) × StandsFor (pass_account pass.new) k (V.keeping v)) }
        ensures wins { IfOk result (λ _. WinsAtOnce (pass_exchanges pass.old) (pass_exchanges pass.new)) }
        ensures taken { IfErr result (λ t. FindsTaken (pass_account pass.old) (pass_exchanges pass.old) k t.word (pass_account pass.new) (pass_exchanges pass.new)) }
    {
        pass.try_hold(self, k)
    }
}
