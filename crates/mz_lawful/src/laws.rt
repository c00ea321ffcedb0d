//! What holds of these definitions: each function's contract is a law.

ghost use Rattle.std.specs.Prelude.{◌≡◌, ◌≢◌, ◌++◌, ◌⊎◌, ℕ, List, []};
ghost use Rattle.mz_events.specs.declared.entry.Entry.{Entry as entry};
ghost use Rattle.mz_lines.specs.declared.answer.Answer.{Answer as answer};
ghost use Rattle.mz_trace.specs.declared.run.RunRound.{RunRound as run_round};
ghost use Rattle.mz_lawful.specs.Records.{LineRecord};
ghost use Rattle.mz_lawful.specs.Standing.{Caller, Standing, caller_at, with_caller};
ghost use Rattle.mz_lawful.specs.Settings.{Setting};
ghost use Rattle.mz_lawful.specs.Tasks.{Task, refused, task_of};
ghost use Rattle.mz_lawful.specs.Fitting.{ShowsSome, IsAnswer, FitsRecord};
ghost use Rattle.mz_lawful.specs.After.{after_record};
ghost use Rattle.mz_lawful.specs.LawfulRun.{placed, behind_all, placed_rounds, after_rounds};

/// A caller is as it was last left, whatever was done to others.
pub fn callers_apart()
    ensures own { (c : ℕ) (me : Caller) (v : Standing) → caller_at (with_caller c me v) c ≡ me }
    ensures others { (c d : ℕ) (me : Caller) (v : Standing) → c ≢ d → caller_at (with_caller c me v) d ≡ caller_at v d }
{}

/// A line that is refused has that answer and no entry, and leaves all as it stands.
pub fn refused_lines()
    ensures answer { (s : Setting) (d : LineRecord) (a : answer) → FitsRecord s d → task_of s d.line ≡ refused a → d.answer ≡ a }
    ensures entries { (s : Setting) (d : LineRecord) (a : answer) → FitsRecord s d → task_of s d.line ≡ refused a → d.entries ≡ [] }
    ensures standing { (s : Setting) (d : LineRecord) (a : answer) → task_of s d.line ≡ refused a → after_record s d ≡ s.standing }
{}

/// What a line is to do and its entries leave one answer, but for the bytes that are shown.
pub fn one_answer()
    ensures { (task : Task) (es : List entry) (a b : answer) → IsAnswer task es a → IsAnswer task es b →
        (a ≡ b) ⊎ ((count : ℕ) × ShowsSome count a × ShowsSome count b) }
{}

/// Records stand one behind another, and rounds too, in however many parts they are taken.
pub fn in_parts()
    ensures records { (s : Setting) (front back : List LineRecord) → placed s (front ++ back) ≡ placed s front ++ placed (behind_all s front) back }
    ensures rounds { (s : Setting) (front back : List run_round) →
        placed_rounds s (front ++ back) ≡ placed_rounds s front ++ placed_rounds (after_rounds s front) back }
{}
