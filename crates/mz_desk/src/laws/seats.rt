//! A register is opened with seat 0; a seat is cut from seat 0, and taken in again.
ghost use Rattle.std.specs.Prelude.{ℕ, List, Option};
ghost use Rattle.atomic_table.specs.Table.{Splits, Joins, opening};
ghost use Rattle.mz_desk.specs.declared.view.View.{View};
ghost use Rattle.mz_desk.specs.Views.{Opened, first_view};
ghost use mathlib.Core.Option.{some};
ghost use lib.ListN.{get_elem?};
ghost use Rattle.atomic_table.specs.Table as table;
ghost use Rattle.std.specs.Prelude.{◌≡◌};
ghost use Rattle.mz_desk.specs.Opening.{CanOpen};
ghost use Rattle.mz_desk.specs.Ending.{TookAll, Ended};
ghost use Rattle.mz_desk.specs.Rule.{Rule};
ghost use Rattle.mz_desk.specs.Seats.{giver, given_view, joined_view, spent_view, CanGive, CanTakeIn};

use crate::laws::of_histories;
use mz_events::Keep;

/// split-seat: seat 0 gives the next number, with its caller's pairs.
pub fn split_seat<V: Keep>()
    ensures { (key : Opened) (id : ℕ) (v : View) → CanGive v → Splits (Rule V.keeping key) id v (giver v) (given_view v) }
{
    of_histories();
}

/// join-seat: seat 0 takes in a seat that holds nothing, with its record and its hand.
pub fn join_seat<V: Keep>()
    ensures { (key : Opened) (id other : ℕ) (v w : View) → CanTakeIn v w → Joins (Rule V.keeping key) id v other w (joined_view v w) spent_view }
{
    of_histories();
}

/// The rule holds of a table that is opened with free keepers at home and no light held, with seat 0 alone.
pub fn open<V: Keep>()
    ensures { (key : Opened) (words : List ℕ) (keepers : List (Option V)) → CanOpen V.keeping key words keepers → Rule V.keeping key (opening words keepers (first_view key)) }
{}

/// Once seat 0 took in all others and holds nothing, all keepers are at home and no light is held.
pub fn end<V: Keep>()
    ensures { (key : Opened) (s : table.State (Option V) View) (id : ℕ) (v : View) → Rule V.keeping key s → get_elem? s.views id ≡ some v → TookAll v → Ended V.keeping key v s.words s.homes }
{}
