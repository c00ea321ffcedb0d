//! The numbers behind a run.

ghost use Rattle.std.specs.Prelude.{◌≡◌};
ghost use Rattle.mz_base.specs.Limits.{IsWithinLimits};
ghost use Rattle.mz_events.specs.State.{opening};
ghost use Rattle.mz_events.specs.History.{AreLawful, after_all};
ghost use Rattle.mz_lawful.specs.Tail.{statistics_of};
ghost use Rattle.mz_session.specs.StatisticsLaws.{StatisticsLaws};
ghost use Rattle.mz_session.specs.Counting.{CanCount, statistics_with};

use mz_base::{PAGE, Profile};
use mz_book::laws::live::live_sums_after_an_event;
use mz_events::laws::{entries, events, holding, separation, states};
use mz_events::{Entry, Event};
use mz_trace::Statistics;

/// The statistics behind a history.
pub(crate) fn statistics(p: &Profile, history: &[Entry]) -> Statistics
    requires limits { IsWithinLimits p.now }
    requires lawful { AreLawful p.now opening history.now }
    ensures { result ≡ statistics_of p.now (after_all p.now opening history.now) }
{
    of_statistics();
    let mut statistics = Statistics {
        blocks_in_use: 0,
        size_in_use: 0,
        max_size_in_use: 0,
        size_allocated: p.nano * PAGE,
    };
    for entry in history {
        count(&mut statistics, entry.event);
    }
    statistics
}

// The laws of histories on which this rests hold, all together.
fn of_statistics()
    ensures { StatisticsLaws }
{
    live_sums_after_an_event();
    entries::states_split();
    entries::lawful_entries_split();
    entries::greatest_after_an_event();
    events::when_an_event_fits();
    holding::what_an_event_leaves();
    separation::separation();
    separation::live_blocks_are_ascending();
    separation::live_bytes_fit_the_space();
    separation::runs_fit_the_space();
    states::spots_stand_once();
    states::lists_are_by_spot();
}

// Counts one more event.
fn count(statistics: &mut Statistics, event: Event)
    requires { CanCount statistics.old event }
    ensures { statistics.new ≡ statistics_with statistics.old event }
{
    match event {
        Event::New { s, .. } => {
            statistics.blocks_in_use += 1;
            statistics.size_in_use += s;
        }
        Event::End { s, .. } => {
            statistics.blocks_in_use -= 1;
            statistics.size_in_use -= s;
        }
        Event::Size { s, s2, .. } => {
            statistics.size_in_use += s2;
            statistics.size_in_use -= s;
        }
        Event::Take { pages, .. } => statistics.size_allocated += pages * PAGE,
        Event::Back { pages, .. } => statistics.size_allocated -= pages * PAGE,
        Event::Move { .. }
        | Event::Full { .. }
        | Event::Dry { .. }
        | Event::No { .. }
        | Event::Open { .. }
        | Event::Shut { .. } => {}
    }
    statistics.max_size_in_use = statistics.max_size_in_use.max(statistics.size_in_use);
}
