//! Event by event: when it fits, and what it leaves at each spot that it touches.
//!
//! The records of `specs/Fitting.antt` say the rules of one event in its own words, and `specs/Leaving.antt` what it leaves,
//! by the functions of `specs/Changes.antt`. With `what_an_event_leaves` of `holding` no one above has to look into the table
//! of rules.

ghost use Rattle.std.specs.Prelude.{◌≡◌, ℕ, Option};
ghost use Rattle.mz_base.specs.declared.profile.Profile.{Profile};
ghost use Rattle.mz_events.specs.declared.place.Place.{Place as place};
ghost use Rattle.mz_events.specs.declared.event.Event.{Event as event};
ghost use Rattle.mz_events.specs.declared.event.Event.TheVariants.{Full};
ghost use Rattle.mz_events.specs.Places.{spot_of};
ghost use Rattle.mz_events.specs.State.{Kept, State, value_at};
ghost use Rattle.mz_events.specs.Fitting.{FoundFull, FitsByEvent};
ghost use Rattle.mz_events.specs.Leaving.{left_by, LeavesByEvent};

/// An event fits exactly where its own record holds.
pub fn when_an_event_fits()
    ensures { (p : Profile) (s : State) (c : ℕ) → FitsByEvent p s c }
{}

/// What an event leaves at each spot that it touches. Who left a full at a place has found it full for that request, as long as
/// nothing else touches it.
pub fn what_an_event_changes()
    ensures leaves { (s : State) (c : ℕ) → LeavesByEvent s c }
    ensures found { (s : State) (c : ℕ) (k : place) (n al : ℕ) (kept : Kept) (duty : Option event) →
        value_at s (spot_of k) ≡ left_by c (Full k n al) kept duty → FoundFull s c k (n, al) }
{}
