//! What the definitions of texts mean. Each function here is a law: it does nothing, and its
//! contract holds of every text, every trace and every run.

ghost use Rattle.std.specs.Prelude.{◌≡◌, ◌↔◌, ◌||◌, ℕ, List, None};
ghost use Rattle.std.specs.Str.{bytes_eq};
ghost use Rattle.mz_trace.specs.Faults.{bad_line_of};
ghost use Rattle.mz_trace.specs.Given.{has_name, with_name};
ghost use Rattle.mz_trace.specs.RunForms.{IsRun};
ghost use Rattle.mz_trace.specs.RunTexts.{trace_of};
ghost use Rattle.mz_trace.specs.Texts.{IsTraceText, HasTrace, IsTrace, normal_text};
ghost use Rattle.mz_trace.specs.declared.run.Run.{Run};
ghost use Rattle.mz_trace.specs.declared.trace.Trace.{Trace as trace};

use mz_lines::laws::line_laws;

/// A text is one of at most one trace.
pub fn one_trace()
    ensures { (bytes : List ℕ) (t u : trace) → IsTraceText bytes t → IsTraceText bytes u → t ≡ u }
{
    line_laws();
}

/// A text is one of a trace exactly where it has no bad line.
pub fn without_bad_line()
    ensures { (bytes : List ℕ) → (bad_line_of bytes ≡ None) ↔ HasTrace bytes }
{
    line_laws();
}

/// The normal form of a trace is a text of it, and every text is one of a value that is a trace.
pub fn normal_form()
    ensures text { (t : trace) → IsTrace t → IsTraceText (normal_text t) t }
    ensures trace { (bytes : List ℕ) (t : trace) → IsTraceText bytes t → IsTrace t }
{}

/// The trace of a run is a trace: its lines keep all rules of a trace's lines.
pub fn trace_of_run()
    ensures { (r : Run) → IsRun r → IsTrace (trace_of r) }
{}

/// One more name is among the names under which blocks were given, and every other stands as before.
pub fn one_more_name()
    ensures { (names : List (List ℕ)) (name base : List ℕ) → has_name (with_name names name) base ≡ (bytes_eq name base || has_name names base) }
{}
