//! Keeper numbers and places, both ways.

ghost use Rattle.std.specs.Prelude.{◌≡◌, ◌<◌, ℕ, Bool, true, false, List, IsTrue, ◌↔◌};
ghost use Rattle.mz_base.specs.declared.profile.Profile.{Profile};
ghost use Rattle.mz_events.specs.declared.place.Place.{Place as place};
ghost use Rattle.mz_events.specs.Places.{is_nano, exists_in, spot_of, nano_page};
ghost use Rattle.mz_book.specs.Keepers.{keeper_count, keeper_of, place_at, is_among, is_held};

/// Each place but nano has a keeper's number, which is its own, and each keeper's number has a place.
pub fn numbers_of_keepers()
    ensures number { (p : Profile) (q : place) → is_nano q ≡ false → IsTrue (exists_in p q) → keeper_of p q < keeper_count p }
    ensures place { (p : Profile) (q : place) → is_nano q ≡ false → IsTrue (exists_in p q) → place_at p (keeper_of p q) ≡ q }
    ensures back { (p : Profile) (k : ℕ) → k < keeper_count p → keeper_of p (place_at p k) ≡ k }
    ensures exists { (p : Profile) (k : ℕ) → k < keeper_count p → IsTrue (exists_in p (place_at p k)) }
    ensures not_nano { (p : Profile) (k : ℕ) → is_nano (place_at p k) ≡ false }
{}

/// A place that has a keeper is held where its keeper's number is among those held; a page of nano never is.
pub fn held_places()
    ensures place { (p : Profile) (held : List ℕ) (q : place) → is_nano q ≡ false → is_held p held (spot_of q) ≡ is_among held (keeper_of p q) }
    ensures page { (p : Profile) (held : List ℕ) (i : ℕ) → is_held p held (nano_page i) ≡ false }
{}
