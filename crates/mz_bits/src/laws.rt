//! What the definitions mean. Each function here is a law: it does nothing, and its contract says
//! how what a definition of `specs/` makes is read.

ghost use Rattle.std.specs.Prelude.{ℕ, ◌+◌, ◌≤◌, List, Bool, length};
ghost use Rattle.mz_bits.specs.Runs.{with_run, HasRun};

/// Bits with a run made one value have that value in the run, and are as they were elsewhere.
pub fn a_run_is_read()
    ensures { (bits : List Bool) (i n : ℕ) (v : Bool) → i + n ≤ length bits →
        HasRun bits (with_run bits i n v) i n v }
{}
