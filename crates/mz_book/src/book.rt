//! The trait of one caller's access to keepers and history.
ghost use Rattle.std.specs.Prelude.{◌≡◌, ◌<◌, ◌≤◌, IfErr};
ghost use Rattle.mz_book.specs.Account.{Account, StandsFor, IsOrderly};
ghost use Rattle.mz_book.specs.Exchanges.{Exchanges, class_place, slot_place, Clashes};
ghost use Rattle.mz_book.specs.Calls.{CanHold, Holds, CanNote, Notes, CanRelease, Releases, CanSettle, Settles, CanHoldLight, HoldsLight, CanReleaseLight, ReleasesLight};

use crate::light::{Found, Light};
use mz_events::{Event, Keep};
use std::sync::Wait;

/// One caller's access to keepers and history. Contracts see of it one plain record, its account
/// (`specs/Account.antt`), and say of each call what it does to that (`specs/Calls.antt`): all else in it
/// stays. Beside that they see the exchanges of words that the book made (`specs/Exchanges.antt`): a word that `Found` carries was
/// found by one of this call.
pub trait Book<V: Keep> {
    ghost account: { Self → Account };

    ghost exchanges: { Self → Exchanges };

    /// The number of the caller.
    fn caller(&self) -> u32
        ensures { result ≡ (account self.now).caller };

    /// Takes the keeper of number `k`, which is above each one held. It stands for its place in the state
    /// after all that the book has seen then, and no duty stands there. It may wait.
    fn hold<R: Wait>(&mut self, rt: &R, k: usize) -> V
        requires { CanHold (account self.old) k }
        ensures holds { Holds (account self.old) k (account self.new) }
        ensures stands { StandsFor (account self.new) k (V.keeping result) };

    /// Makes an event the next entry of the history, and answers its ticket.
    fn note(&mut self, e: Event) -> u64
        requires { CanNote (account self.old) e }
        ensures { Notes (account self.old) e result (account self.new) };

    /// Gives the keeper of number `k` back. It stands for its place, and no duty stands there.
    fn release(&mut self, k: usize, v: V)
        requires can { CanRelease (account self.old) k }
        requires stands { StandsFor (account self.old) k (V.keeping v) }
        ensures { Releases (account self.old) k (account self.new) };

    /// Gives the block `b` of nano a class, from 1 to 16. `Found` carries the other class that it has.
    fn settle(&mut self, b: u64, class: u64) -> Result<(), Found>
        requires { CanSettle (account self.old) b class }
        ensures settles { Settles (account self.old) b class result (account self.new) }
        ensures clash { IfErr result (λ f. Clashes (account self.old) (exchanges self.old) (class_place (account self.old).profile b) 0 f.word (exchanges self.new)) };

    /// Takes the light of the slot `j` of the block `b` of nano where the slot's word is `expect`: 0 for a slot that is
    /// idle, 1 for one that is live. `Found` carries another word. It never comes where `expect` is 1, since the slot's pair is
    /// in the hand.
    fn hold_light(&mut self, b: u64, j: u64, expect: u64) -> Result<Light, Found>
        requires { CanHoldLight (account self.old) b j expect }
        ensures holds { HoldsLight (account self.old) b j expect result (account self.new) }
        ensures clash { IfErr result (λ f. Clashes (account self.old) (exchanges self.old) (slot_place (account self.old).profile b j) expect f.word (exchanges self.new)) };

    /// Gives a light back. The slot's word is 1 from then on where its pair is live, which `live` says, and else 0.
    fn release_light(&mut self, l: Light, live: bool)
        requires { CanReleaseLight (account self.old) l live }
        ensures { ReleasesLight (account self.old) l (account self.new) };

    /// What holds of every book between its calls.
    ghost orderly: { (b : Self) → IsOrderly (account b) };
}
