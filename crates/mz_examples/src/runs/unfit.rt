//! The first record of a run that doesn't fit, by the number of its line, and the first wrong line behind
//! a run. The runs stand in `specs/RunsUnfit.antt`.

ghost use Rattle.std.specs.Prelude.{◌≡◌, [], take, Some, None};
ghost use Rattle.mz_lines.specs.declared.answer.Answer.TheVariants as answers;
ghost use Rattle.mz_events.specs.History.{IsLawfulHistory};
ghost use Rattle.mz_lawful.specs.Records.{entries_of};
ghost use Rattle.mz_lawful.specs.FirstUnfit.{FirstUnfit, first_wrong_line};
ghost use Rattle.mz_examples.specs.Examples.{thin_path};
ghost use Rattle.mz_examples.specs.Edges.{two_callers};
ghost use Rattle.mz_examples.specs.RunsUnfit.{thin_path_with, ended_by_other, thin_path_tail, its_block, two_blocks};

use mz_events::laws::lawful_without_breach;

/// A wrong answer, and a request without its last entry.
pub fn first_unfit_record()
    ensures answer { FirstUnfit (thin_path_with thin_path (answers.Block 0 128)) 5 }
    ensures left_out { FirstUnfit (thin_path_with (take 3 thin_path) (answers.Block 0 112)) 5 }
{}

/// A caller's record fits though another caller has ended its block before: the first record that doesn't
/// fit is that of the caller that did.
pub fn ended_by_another_caller()
    ensures lawful { IsLawfulHistory two_callers (entries_of ended_by_other) }
    ensures unfit { FirstUnfit ended_by_other 17 }
{
    lawful_without_breach();
}

/// A wrong number, a block that is missing, and one that is left over.
pub fn first_wrong_lines()
    ensures none { first_wrong_line (thin_path_with thin_path (answers.Block 0 112)) (thin_path_tail its_block 112) ≡ None }
    ensures number { first_wrong_line (thin_path_with thin_path (answers.Block 0 112)) (thin_path_tail its_block 111) ≡ Some 14 }
    ensures missing { first_wrong_line (thin_path_with thin_path (answers.Block 0 112)) (thin_path_tail [] 112) ≡ Some 12 }
    ensures left_over { first_wrong_line (thin_path_with thin_path (answers.Block 0 112)) (thin_path_tail two_blocks 112) ≡ Some 13 }
{}
