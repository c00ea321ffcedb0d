//! What the definitions mean where room is looked for. The function here is a law: it does nothing.

ghost use Rattle.std.specs.Prelude.{ℕ, ◌≤◌, List, IsTrue};
ghost use Rattle.mz_base.specs.Space.{Block};
ghost use Rattle.mz_base.specs.IdleRuns.{IsIdle};
ghost use Rattle.mz_base.specs.Room.{has_room_within};

/// Where all that is idle among some blocks is idle among others too, there is room among the others where there is room
/// among the first.
pub fn room_stays_where_bytes_stay_idle()
    ensures { (start end : ℕ) (these others : List Block) (n al : ℕ) → 1 ≤ n → 1 ≤ al
        → ((x y : ℕ) → IsIdle start end these x y → IsIdle start end others x y)
        → IsTrue (has_room_within start end these n al) → IsTrue (has_room_within start end others n al) }
{}
