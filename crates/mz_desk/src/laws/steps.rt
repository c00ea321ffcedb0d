//! A seat's own steps. Whatever the table is when the word changes, the rule holds after the step too, and the seat is told what it did.
ghost use Rattle.std.specs.Prelude.{◌≡◌, ℕ, ◌+◌, ◌*◌, ◌%◌, ◌^◌, ◌<◌, ◌≤◌, ◌==◌};
ghost use mathlib.Core.Option.{none};
ghost use prog.Atomic.{either};
ghost use Rattle.atomic_table.specs.Table.{step, Allows};
ghost use Rattle.mz_events.specs.declared.event.Event.{Event as event};
ghost use Rattle.mz_desk.specs.declared.view.View.{View};
ghost use Rattle.mz_desk.specs.Words.{lock_place, class_place, slot_place};
ghost use Rattle.mz_desk.specs.Views.{Opened};
ghost use Rattle.mz_desk.specs.Rule.{Rule};
ghost use Rattle.mz_desk.specs.Needs.{Seated, CanLock, CanLook, CanDraw, CanFree, CanLight, CanUnlight, CanClass};
ghost use Rattle.mz_desk.specs.Steps.{TriesLock, Looks, Draws, Frees, TriesLight, StoresLight, TriesClass};

use crate::laws::of_histories;
use mz_events::Keep;

/// take-lock: the lock word of a keeper is exchanged, from 0 to 1 and the caller.
pub fn take_lock<V: Keep>()
    ensures { (key : Opened) (slots id k : ℕ) (me : Seated V) → CanLock me.0 k →
        Allows (Rule V.keeping key) slots id me (lock_place k) (λ n. either (n == 0) (me.0.caller + 1) n) (TriesLock (step slots (lock_place k) 0 (me.0.caller + 1) none) me) }
{
    of_histories();
}

/// look: the counter is loaded, and the keeper that is locked taken.
pub fn look<V: Keep>()
    ensures { (key : Opened) (slots id k : ℕ) (me : Seated V) → CanLook me.0 k →
        Allows (Rule V.keeping key) slots id me 0 (λ n. n) (Looks V.keeping (step slots 0 0 0 none) me) }
{
    of_histories();
}

/// draw-ticket: one is added to the counter, and an event to the history.
pub fn draw_ticket<V: Keep>()
    ensures { (key : Opened) (slots id : ℕ) (me : Seated V) (e : event) → CanDraw me.0 e →
        Allows (Rule V.keeping key) slots id me 0 (λ n. (n + 1) % 2 ^ 64) (Draws e (step slots 0 1 0 none) me) }
{
    of_histories();
}

/// free-lock: the keeper that was taken last is given back, and 0 stored in its lock word.
pub fn free_lock<V: Keep>()
    ensures { (key : Opened) (slots id k : ℕ) (me : Seated V) (x : V) → CanFree V.keeping me k x →
        Allows (Rule V.keeping key) slots id me (lock_place k) (λ n. 0) (λ n. Frees (step slots (lock_place k) 0 0 none) me 0) }
{
    of_histories();
}

/// take-light: the word of a slot is exchanged, from what is expected to 2 and the caller.
pub fn take_light<V: Keep>()
    ensures { (key : Opened) (slots id b j expect : ℕ) (me : Seated V) → CanLight me.0 b j expect →
        Allows (Rule V.keeping key) slots id me (slot_place me.0.profile b j) (λ n. either (n == expect) (2 + me.0.caller) n) (TriesLight b j (step slots (slot_place me.0.profile b j) expect (2 + me.0.caller) none) me) }
{
    of_histories();
}

/// store-light: 1 is stored in the word of a slot where its pair is in the hand, and else 0.
pub fn store_light<V: Keep>()
    ensures { (key : Opened) (slots id b j word : ℕ) (me : Seated V) → CanUnlight me.0 b j word →
        Allows (Rule V.keeping key) slots id me (slot_place me.0.profile b j) (λ n. word) (λ n. StoresLight b j (step slots (slot_place me.0.profile b j) word 0 none) me word) }
{
    of_histories();
}

/// settle-class: the class word of a block is exchanged, from 0 to a class.
pub fn settle_class<V: Keep>()
    ensures { (key : Opened) (slots id b class : ℕ) (me : Seated V) → CanClass me.0 b class →
        Allows (Rule V.keeping key) slots id me (class_place me.0.profile b) (λ n. either (n == 0) class n) (TriesClass b (step slots (class_place me.0.profile b) 0 class none) me) }
{
    of_histories();
}
