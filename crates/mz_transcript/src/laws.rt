//! What the definitions of printed runs mean. Each function here is a law: it does nothing, and its
//! contract holds of every text and every run.

ghost use Rattle.std.specs.Prelude.{◌≡◌, ℕ, List};
ghost use Rattle.mz_trace.specs.RunForms.{IsRunText};
ghost use Rattle.mz_trace.specs.declared.run.Run.{Run};
ghost use Rattle.mz_trace.specs.declared.tail.Figures.{Figures};
ghost use Rattle.mz_transcript.specs.RunFaults.{IsFirstBadLine};

use mz_lines::laws::line_laws;
use mz_trace::laws::one_more_name;

/// Bytes are the text of one run with its listing and statistics at most: what is printed fixes the run.
pub fn one_run()
    ensures { (bytes : List ℕ) (r s : Run) (t u : Figures) → IsRunText bytes r t → IsRunText bytes s u → (r ≡ s) × (t ≡ u) }
{
    line_laws();
    one_more_name();
}

/// Bytes have at most one first bad line, as printed runs.
pub fn one_first_bad_line()
    ensures { (bytes : List ℕ) (m n : ℕ) → IsFirstBadLine bytes m → IsFirstBadLine bytes n → m ≡ n }
{}
