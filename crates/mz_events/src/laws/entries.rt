//! Lists of entries: a state and a lawful history split at any place, tickets are indices, and what a caller's own entries
//! put into its hand.

ghost use Rattle.std.specs.Prelude.{◌≡◌, ◌≢◌, ℕ, ◌+◌, ◌==◌, ◌&&◌, ◌||◌, not, false, List, [], ◌∷◌, ◌++◌, length, max, Some, slice_get, IsTrue, ◌↔◌};
ghost use Rattle.std.specs.List.{All};
ghost use Rattle.mz_base.specs.declared.profile.Profile.{Profile};
ghost use Rattle.mz_base.specs.Space.{Block};
ghost use Rattle.mz_events.specs.declared.entry.Entry.{Entry as entry};
ghost use Rattle.mz_events.specs.declared.event.Event.{Event as event};
ghost use Rattle.mz_events.specs.declared.event.Event.TheVariants.{Open, Shut};
ghost use Rattle.mz_events.specs.Places.{Spot};
ghost use Rattle.mz_events.specs.State.{State, opening, value_at, is_open, live_size};
ghost use Rattle.mz_events.specs.Effect.{touches, after};
ghost use Rattle.mz_events.specs.History.{IsLawful, AreLawful, after_entry, after_all, owes_nothing, by_ticket, IsLawfulHistory};
ghost use Rattle.mz_events.specs.Hands.{own, hand_after, hand_through, hand_of};
ghost use Rattle.mz_events.specs.Holding.{changes_zones};

/// The state after entries splits at any place of the list. Each entry counts once, and a spot that none of them touches
/// stays.
pub fn states_split()
    ensures none { (p : Profile) (s : State) → after_all p s [] ≡ s }
    ensures one { (p : Profile) (s : State) (e : entry) → after_all p s (e ∷ []) ≡ after_entry p s e }
    ensures joined { (p : Profile) (s : State) (xs ys : List entry) →
        after_all p s (xs ++ ys) ≡ after_all p (after_all p s xs) ys }
    ensures counted { (p : Profile) (s : State) (xs : List entry) →
        (after_all p s xs).entries ≡ s.entries + length xs }
    ensures untouched { (p : Profile) (s : State) (xs : List entry) (j : Spot) →
        All (λ e. touches p e.event j ≡ false) xs → value_at (after_all p s xs) j ≡ value_at s j }
{}

/// The greatest sum of live sizes so far is, after an event, the sum that it leaves where that is greater.
pub fn greatest_after_an_event()
    ensures { (p : Profile) (s : State) (c : ℕ) (e : event) →
        (after p s c e).greatest ≡ max s.greatest (live_size (after p s c e).values) }
{}

/// So does lawfulness: entries are lawful exactly where those before the place are, and those behind it on the state that
/// these leave.
pub fn lawful_entries_split()
    ensures none { (p : Profile) (s : State) → AreLawful p s [] }
    ensures one { (p : Profile) (s : State) (e : entry) → AreLawful p s (e ∷ []) ↔ IsLawful p s e }
    ensures joined { (p : Profile) (s : State) (xs ys : List entry) →
        AreLawful p s (xs ++ ys) ↔ (AreLawful p s xs × AreLawful p (after_all p s xs) ys) }
{}

/// The ticket of a lawful entry is its index, counted from the entries before. So a list that is lawful as it stands is in
/// the order of its tickets, and from the opening state, with no duty at its end, a lawful history.
pub fn tickets_are_indices()
    ensures index { (p : Profile) (s : State) (entries : List entry) →
        AreLawful p s entries → (i : ℕ) (e : entry) → slice_get entries i ≡ Some e → e.ticket ≡ s.entries + i }
    ensures in_order { (p : Profile) (s : State) (entries : List entry) →
        AreLawful p s entries → by_ticket entries ≡ entries }
    ensures history { (p : Profile) (entries : List entry) →
        AreLawful p opening entries → IsTrue (owes_nothing (after_all p opening entries)) →
        IsLawfulHistory p entries }
{}

/// Open and shut change one zone, and no other event changes any.
pub fn zones_after_an_event()
    ensures others { (p : Profile) (s : State) (c : ℕ) (e : event) →
        changes_zones e ≡ false → (z : ℕ) → is_open (after p s c e) z ≡ is_open s z }
    ensures opened { (p : Profile) (s : State) (c z y : ℕ) →
        is_open (after p s c (Open z)) y ≡ ((z == y) || is_open s y) }
    ensures shut { (p : Profile) (s : State) (c z y : ℕ) →
        is_open (after p s c (Shut z)) y ≡ (not (y == z) && is_open s y) }
{}

/// A caller's own entries, and its hand, go on where the list goes on; entries of others change neither.
pub fn own_entries_and_hands()
    ensures own { (c : ℕ) (xs ys : List entry) → own c (xs ++ ys) ≡ own c xs ++ own c ys }
    ensures mine { (c : ℕ) (xs : List entry) (e : entry) →
        e.caller ≡ c → own c (xs ++ e ∷ []) ≡ own c xs ++ e ∷ [] }
    ensures not_mine { (c : ℕ) (xs : List entry) (e : entry) → e.caller ≢ c → own c (xs ++ e ∷ []) ≡ own c xs }
    ensures through { (hand : List Block) (xs ys : List entry) →
        hand_through hand (xs ++ ys) ≡ hand_through (hand_through hand xs) ys }
    ensures hand { (c : ℕ) (xs ys : List entry) → hand_of c (xs ++ ys) ≡ hand_through (hand_of c xs) (own c ys) }
    ensures hand_mine { (c : ℕ) (xs : List entry) (e : entry) →
        e.caller ≡ c → hand_of c (xs ++ e ∷ []) ≡ hand_after (hand_of c xs) e.event }
    ensures hand_not_mine { (c : ℕ) (xs : List entry) (e : entry) →
        e.caller ≢ c → hand_of c (xs ++ e ∷ []) ≡ hand_of c xs }
{}
