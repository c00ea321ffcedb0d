//! What the definitions mean. Each function here is a law: it does nothing, and its contract says
//! what follows for every call.

ghost use Rattle.std.specs.Prelude.{◌≡◌, ◌≤◌, ◌⊎◌, ℕ, List, Some, None, length};
ghost use Rattle.mz_io.specs.Count.{Rose};
ghost use Rattle.mz_run.specs.declared.status.Status.{Status as status};
ghost use Rattle.mz_run.specs.declared.status.Status.TheVariants.{Done, No, NoMemory};
ghost use Rattle.mz_run.specs.Built.{HasUnbuilt};
ghost use Rattle.mz_run.specs.Top.{most_bytes, Seen, IsRunOutput, JobEnds};
ghost use Rattle.mz_trace.specs.Faults.{bad_line_of};

use crate::job::{Job, RunJob, Tool};
use mz_trace::laws::one_trace;

/// No trace is refused: where no read and no write failed, and the source told bytes that have no bad
/// line, and not too many, a check ends well, unless memory ran out; and a run too, where each line
/// is built. Whatever the bytes are, a check tells whether they are a trace.
pub fn completeness()
    ensures run { (before after : Seen) (s : status) (bytes : List ℕ) → JobEnds (Job.Run RunJob.Trace) before after s
        → ¬ Rose before.read_faults after.read_faults → ¬ Rose before.write_faults after.write_faults
        → before.left ≡ Some bytes → length bytes ≤ most_bytes → bad_line_of bytes ≡ None
        → ((line : ℕ) → ¬ HasUnbuilt bytes line) → (s ≡ Done) ⊎ (s ≡ NoMemory) }
    ensures check { (before after : Seen) (s : status) (bytes : List ℕ) → JobEnds (Job.Tool Tool.Check) before after s
        → ¬ Rose before.read_faults after.read_faults → ¬ Rose before.write_faults after.write_faults
        → before.left ≡ Some bytes → length bytes ≤ most_bytes → bad_line_of bytes ≡ None
        → (s ≡ Done) ⊎ (s ≡ NoMemory) }
    ensures any { (before after : Seen) (s : status) (bytes : List ℕ) → JobEnds (Job.Tool Tool.Check) before after s
        → ¬ Rose before.read_faults after.read_faults → ¬ Rose before.write_faults after.write_faults
        → before.left ≡ Some bytes → length bytes ≤ most_bytes
        → (s ≡ Done) ⊎ ((s ≡ No) ⊎ (s ≡ NoMemory)) }
{}

/// Which line is the first that isn't built is a matter of the bytes: they have no other.
pub fn one_unbuilt_line()
    ensures { (bytes : List ℕ) (m n : ℕ) → HasUnbuilt bytes m → HasUnbuilt bytes n → m ≡ n }
{
    one_trace();
}

/// Bytes with a line that isn't built are never run.
pub fn unbuilt_is_not_run()
    ensures { (bytes output : List ℕ) (line : ℕ) → HasUnbuilt bytes line → ¬ IsRunOutput bytes output }
{
    one_trace();
}
