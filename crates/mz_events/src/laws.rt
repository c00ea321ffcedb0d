//! What holds of every history: each function's contract is a law over the definitions, and its
//! body is empty.
//!
//! - `states`: when two states are one, in whatever order their spots were first touched.
//! - `entries`: lists of entries, their tickets, and a caller's own entries and hand.
//! - `holding`: what an event reads, and what a holder knows whatever the others do.
//! - `events`: event by event, when it fits and what it leaves.
//! - `places`: what the kinds of places tell apart.
//! - `separation`: what holds of each state that lawful entries leave: pages, blocks, and their bounds.

pub mod entries;
pub mod events;
pub mod holding;
pub mod places;
pub mod separation;
pub mod states;

ghost use Rattle.std.specs.Prelude.{◌≡◌, ℕ, List, [], ◌∷◌, map, Some, None, false, ◌↔◌};
ghost use Rattle.mz_base.specs.Space.{Run};
ghost use Rattle.mz_base.specs.declared.profile.Profile.{Profile};
ghost use Rattle.mz_events.specs.declared.entry.Entry.{Entry as entry};
ghost use Rattle.mz_events.specs.declared.event.Event.{Event as event};
ghost use Rattle.mz_events.specs.Room.{any_fits, best_fit};
ghost use Rattle.mz_events.specs.BestFit.{IsBestFit};
ghost use Rattle.mz_events.specs.Rules.{in_turn, event_rules, number_of};
ghost use Rattle.mz_events.specs.History.{IsLawfulHistory, breach_of};
ghost use Rattle.mz_events.specs.Locality.{IsLocal};

/// A list of entries has a first breach exactly where it isn't a lawful history.
pub fn lawful_without_breach()
    ensures { (p : Profile) (entries : List entry) → (breach_of p entries ≡ None) ↔ IsLawfulHistory p entries }
{}

/// Whether an event is lawful, and what it leaves where it touches, depends on what it reads and on which
/// zones are open; and it leaves each spot that it doesn't touch as it is.
pub fn locality()
    ensures { (p : Profile) (e : event) → IsLocal p e }
{}

/// The rules stand in the order of their numbers, from 1 to 14.
pub fn rules_in_order()
    ensures { map number_of (in_turn ∷ event_rules) ≡ 1 ∷ 2 ∷ 3 ∷ 4 ∷ 5 ∷ 6 ∷ 7 ∷ 8 ∷ 9 ∷ 10 ∷ 11 ∷ 12 ∷ 13 ∷ 14 ∷ [] }
{}

/// What the best fit is, when there is none, and that a run which is the best fit for some number of
/// pages is so for its own.
pub fn best_fits()
    ensures found { (cached : List Run) (w : ℕ) (r : Run) → (best_fit cached w ≡ Some r) ↔ IsBestFit cached w r }
    ensures none { (cached : List Run) (w : ℕ) → (best_fit cached w ≡ None) ↔ (any_fits cached w ≡ false) }
    ensures own { (cached : List Run) (w : ℕ) (r : Run) → best_fit cached w ≡ Some r → best_fit cached r.pages ≡ Some r }
{}
