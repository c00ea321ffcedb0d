//! What the definitions mean. Each function here is a law: it does nothing, and its contract
//! says that a definition of `specs/` gives the least number of its kind, or is there exactly where
//! it has room.

ghost use Rattle.std.specs.Prelude.{ℕ, ◌<◌, ◌≤◌, ◌↔◌, List, IsSome, IsTrue};
ghost use Rattle.mz_base.specs.declared.profile.Profile.{Profile};
ghost use Rattle.mz_base.specs.Space.{Block, Run, block_at, units_for, least_multiple};
ghost use Rattle.mz_base.specs.Room.{has_room_within, is_front_within, has_free, is_lowest_free};
ghost use Rattle.mz_base.specs.IdleRuns.{IsRoom, IsFront};
ghost use Rattle.mz_base.specs.FreeRuns.{IsSomeFree, IsLowestFree};
ghost use Rattle.mz_base.specs.Sizes.{route_of, good_size_of, good_size_within};
ghost use Rattle.mz_base.specs.Laws.{IsLeastCount, IsLeastMultiple, IsLeastSize, LiesInSpace};

/// The units for some bytes are enough, and one fewer isn't.
pub fn units_are_fewest()
    ensures { (unit n : ℕ) → 0 < unit → IsLeastCount unit n (units_for unit n) }
{}

/// The least multiple of an alignment is one, and none lies between it and the address.
pub fn multiple_is_least()
    ensures { (al x : ℕ) → 0 < al → IsLeastMultiple al x (least_multiple al x) }
{}

/// A good size is a size of the range that serves the request, and no lesser one would do.
pub fn good_size_is_least()
    ensures { (n : ℕ) → IsLeastSize (route_of n) n (good_size_of n) }
{}

/// A profile has a good size for a request exactly where a block of that size, from address 0 on,
/// lies in its space.
pub fn good_size_is_there_where_it_fits()
    ensures { (p : Profile) (n : ℕ) → IsSome (good_size_within p n) ↔ LiesInSpace p (block_at 0 (good_size_of n)) }
{}

/// A stretch of bytes has room exactly where some idle run of it has. The blocks may be any.
pub fn room_is_in_an_idle_run()
    ensures { (start end : ℕ) (live : List Block) (n al : ℕ) → 1 ≤ n → 1 ≤ al → IsTrue (has_room_within start end live n al) ↔ IsRoom start end live n al }
{}

/// A block is at the front exactly where it begins at the front of some idle run that has room for
/// it.
pub fn front_is_of_an_idle_run()
    ensures { (start end : ℕ) (live : List Block) (b : Block) (al : ℕ) → 1 ≤ b.size → 1 ≤ al → IsTrue (is_front_within start end live b al) ↔ IsFront start end live b al }
{}

/// Pages are free for a request exactly where some run of them is, and the lowest of those is the
/// one that no other is below. The runs that are taken may be any.
pub fn free_runs()
    ensures some { (top w al : ℕ) (taken : List Run) → 1 ≤ al → IsTrue (has_free top taken w al) ↔ IsSomeFree top taken w al }
    ensures lowest { (top al : ℕ) (taken : List Run) (r : Run) → 1 ≤ al → IsTrue (is_lowest_free top taken r al) ↔ IsLowestFree top taken r al }
{}
