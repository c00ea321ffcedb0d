//! When two states are one for code that keeps their values in an order of its own.

ghost use Rattle.std.specs.Prelude.{◌≡◌, ℕ, List};
ghost use Rattle.mz_base.specs.declared.profile.Profile.{Profile};
ghost use Rattle.mz_events.specs.declared.entry.Entry.{Entry as entry};
ghost use Rattle.mz_events.specs.declared.event.Event.{Event as event};
ghost use Rattle.mz_events.specs.State.{State, opening};
ghost use Rattle.mz_events.specs.Effect.{after};
ghost use Rattle.mz_events.specs.History.{after_all};
ghost use Rattle.mz_events.specs.Sameness.{IsOnce, IsSame, AreAlike, IsBySpot};

/// In the opening state, and in each state that entries leave, each spot stands once among the values.
pub fn spots_stand_once()
    ensures at_first { IsOnce opening }
    ensures after_event { (p : Profile) (s : State) (c : ℕ) (e : event) → IsOnce s → IsOnce (after p s c e) }
    ensures after_entries { (p : Profile) (s : State) (entries : List entry) →
        IsOnce s → IsOnce (after_all p s entries) }
{}

/// Sameness of states is an equality.
pub fn sameness_is_an_equality()
    ensures itself { (s : State) → IsSame s s }
    ensures turned { (s t : State) → IsSame s t → IsSame t s }
    ensures joined { (s t u : State) → IsSame s t → IsSame t u → IsSame s u }
{}

/// States that are the same can't be told apart: not by a rule, by what entries leave, by a first breach, nor by their
/// duties, live blocks and runs, and what their places keep.
pub fn same_states_are_alike()
    ensures { (p : Profile) (s t : State) → IsOnce s → IsOnce t → IsSame s t → AreAlike p s t }
{}

/// No duty stands exactly where none stands at any spot; the lists of live blocks and of runs have just those of each spot;
/// and the sum of the live sizes is that of the live blocks.
pub fn lists_are_by_spot()
    ensures { (s : State) → IsOnce s → IsBySpot s }
{}
