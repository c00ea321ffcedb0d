//! A run with a record that doesn't fit isn't lawful.

ghost use Rattle.std.specs.Prelude.{ℕ};
ghost use Rattle.mz_trace.specs.declared.trace.Trace.{Trace as trace};
ghost use Rattle.mz_trace.specs.declared.run.Run.{Run as run};
ghost use Rattle.mz_lawful.specs.LawfulRun.{IsLawfulRun};
ghost use Rattle.mz_examples.specs.Spoiled.{WrongAnswer, WrongEntries, WrongBytes, WrongOrder};

/// Whichever part of a record is wrong, the run is no lawful run of any trace.
pub fn not_lawful()
    ensures answer { (t : trace) (r : run) (i : ℕ) → WrongAnswer r i → ¬ IsLawfulRun t r }
    ensures entries { (t : trace) (r : run) (i : ℕ) → WrongEntries r i → ¬ IsLawfulRun t r }
    ensures bytes { (t : trace) (r : run) (i : ℕ) → WrongBytes r i → ¬ IsLawfulRun t r }
    ensures order { (t : trace) (r : run) (i : ℕ) → WrongOrder r i → ¬ IsLawfulRun t r }
{}
