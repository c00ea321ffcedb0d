//! Where the pages are, between any two steps.
ghost use Rattle.std.specs.Prelude.{List, Option};
ghost use Rattle.atomic_table.specs.Table as table;
ghost use Rattle.mz_events.specs.declared.entry.Entry.{Entry as entry};
ghost use Rattle.mz_events.specs.Separation.{IsSeparate};
ghost use Rattle.mz_desk.specs.declared.view.View.{View};
ghost use Rattle.mz_desk.specs.Views.{Opened};
ghost use Rattle.mz_desk.specs.Rule.{Rule, Kept, state_after};

use mz_events::Keep;
use mz_events::laws::separation;

/// In the state that the history leaves each page is in just one place, and all live blocks are apart.
pub fn each_page_is_in_one_place<V: Keep>()
    ensures { (key : Opened) (s : table.State (Option V) View) → Rule V.keeping key s → (later : List entry) × Kept V.keeping key s later × IsSeparate key.profile (state_after key later) }
{
    separation::separation();
}
