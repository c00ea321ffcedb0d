//! What is told apart by the kinds of places alone.

ghost use Rattle.std.specs.Prelude.{◌||◌, IsTrue};
ghost use Rattle.mz_base.specs.declared.profile.Profile.{Profile};
ghost use Rattle.mz_events.specs.declared.place.Place.{Place as place};
ghost use Rattle.mz_events.specs.Places.{is_magazine, is_depot};
ghost use Rattle.mz_events.specs.Magazines.{IsOfRegions, HasDepot};

/// Magazines and depots are places of regions, and each magazine has the depot of its zone.
pub fn magazines_and_depots()
    ensures regions { (k : place) → IsTrue (is_magazine k || is_depot k) → IsOfRegions k }
    ensures depot { (p : Profile) (m : place) → IsTrue (is_magazine m) → HasDepot p m }
{}
