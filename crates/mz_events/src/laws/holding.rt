//! What an event reads, and what a caller knows of the spots that it holds whatever the others do.

ghost use Rattle.std.specs.Prelude.{◌≡◌, ℕ, Bool, true, false, List, ◌↔◌, if◌then◌else◌};
ghost use Rattle.std.specs.List.{All, Contains};
ghost use Rattle.mz_base.specs.declared.profile.Profile.{Profile};
ghost use Rattle.mz_events.specs.declared.entry.Entry.{Entry as entry};
ghost use Rattle.mz_events.specs.declared.event.Event.{Event as event};
ghost use Rattle.mz_events.specs.Places.{Spot, same_spot};
ghost use Rattle.mz_events.specs.State.{State, value_at};
ghost use Rattle.mz_events.specs.Effect.{touched, touches, value_after, after};
ghost use Rattle.mz_events.specs.Locality.{reads};
ghost use Rattle.mz_events.specs.Holding.{read_spots, ReadsHeld, AreAway, IsKnownThrough};

/// An event touches the spots of one list and reads those of another, in which the former stand. So what it reads is held
/// exactly where each spot of that list is.
pub fn what_an_event_reads()
    ensures touched { (p : Profile) (e : event) (j : Spot) → (touches p e j ≡ true) ↔ Contains (touched p e) j }
    ensures read { (p : Profile) (e : event) (j : Spot) → (reads p e j ≡ true) ↔ Contains (read_spots p e) j }
    ensures touched_is_read { (p : Profile) (e : event) (j : Spot) → touches p e j ≡ true → reads p e j ≡ true }
    ensures held { (p : Profile) (held : Spot → Bool) (e : event) →
        ReadsHeld p held e ↔ All (λ j. held j ≡ true) (read_spots p e) }
    ensures same_spot { (j k : Spot) → (same_spot j k ≡ true) ↔ (j ≡ k) }
{}

/// An event leaves its value at each spot that it touches, and each other spot as it is.
pub fn what_an_event_leaves()
    ensures touched { (p : Profile) (s : State) (c : ℕ) (e : event) (j : Spot) →
        touches p e j ≡ true → value_at (after p s c e) j ≡ value_after s c e j }
    ensures untouched { (p : Profile) (s : State) (c : ℕ) (e : event) (j : Spot) →
        touches p e j ≡ false → value_at (after p s c e) j ≡ value_at s j }
    ensures either { (p : Profile) (s : State) (c : ℕ) (e : event) (j : Spot) →
        value_at (after p s c e) j ≡ (if touches p e j then value_after s c e j else value_at s j) }
{}

/// Entries of others that touch no held spot leave all that the holder knows: what it holds and which zones are open, its
/// own entries, and that an event of it that fitted before them fits after them too, and leaves the same.
pub fn others_leave_what_is_held()
    ensures { (p : Profile) (c : ℕ) (held : Spot → Bool) (s : State) (entries : List entry) →
        AreAway p c held entries → IsKnownThrough p c held s entries }
{}
