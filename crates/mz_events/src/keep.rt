//! What stands for a place.
ghost use Rattle.mz_events.specs.Standing.{Keeping};

/// A value that can stand for a place of a space: it keeps the place's lists, and owns those of its bytes that lie in no
/// live block. What it keeps is plain data, and `Stands` of `specs/Standing.antt` says for which places of which states it
/// stands then.
pub trait Keep {
    /// What it keeps, of which space, and for how much it has room.
    ghost keeping: { Self → Keeping };
}
