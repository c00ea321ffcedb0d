//! From a run to the bytes that are printed of it.
//!
//! Each function but `print_run` adds the text of its name to `out`. After an error a part of that
//! text may stand there.

ghost use Rattle.std.specs.Prelude.{◌≡◌, ◌++◌, ◌∷◌, [], IfOk, OnOk, string_bytes, codes, map};
ghost use Rattle.std.specs.Fmt.{decimal};
ghost use Rattle.std.specs.List.{flat_map};
ghost use Rattle.mz_words.specs.Lines.{line_text};
ghost use Rattle.mz_trace.specs.declared.tail.Figures.{Figures as figures};
ghost use Rattle.mz_lines.specs.Answers.{answer_words};
ghost use Rattle.mz_trace.specs.RunForms.{IsRun, IsTail, IsRunText};
ghost use Rattle.mz_trace.specs.RunTexts.{outcome_lines, run_text, run_round_lines, sections_from, section_lines, start_record_lines, call_record_lines, entry_words};
ghost use Rattle.mz_trace.specs.TailTexts.{tail_text, listed_words, statistics_lines};

use crate::run::{CallRecord, Run, RunEntry, RunRound, StartRecord};
use crate::tail::{Figures, Listed, Statistics};
use mz_base::Items;
use mz_lines::Answer;
use mz_lines::answer::write_answer;
use mz_lines::command::write_command;
use mz_lines::event::write_event;
use mz_lines::round_line::write_start;
use mz_lines::space::write_space;
use mz_words::{Form, Word, write_sentence};
use std::alloc::{AllocError, Global};

/// The text of a run: the profile, the rounds with the sections of their callers, and `end`.
pub fn print_run(alloc: Global, run: &Run) -> Result<Vec<u8>, AllocError>
    ensures printed { IfOk result (λ text. text.items ≡ run_text run.now) }

    // With a tail behind it, this is a text of the run, where the value is one.
    ensures text { IfOk result (λ text. (t : figures) → IsRun run.now → IsTail t → IsRunText (text.items ++ tail_text t) run.now t) }
{
    let mut out = String::new(alloc);
    out.push_str("mzone-run 1\n")?;
    write_space(&mut out, &run.profile)?;
    print_rounds(&mut out, run.rounds.as_slice())?;
    out.push_str("end\n")?;
    Ok(out.into_bytes())
}

fn print_rounds(out: &mut String, rounds: &[RunRound]) -> Result<(), AllocError>
    ensures { OnOk result (string_bytes out.new ≡ string_bytes out.old ++ flat_map line_text (flat_map run_round_lines rounds.now)) }
{
    for round in rounds {
        print_round(out, round)?;
    }
    Ok(())
}

fn print_round(out: &mut String, round: &RunRound) -> Result<(), AllocError>
    ensures { OnOk result (string_bytes out.new ≡ string_bytes out.old ++ flat_map line_text (run_round_lines round.now)) }
{
    out.push_str("round\n")?;
    print_starts(out, round.starts.as_slice())?;
    print_sections(out, round.callers.as_slice())
}

fn print_starts(out: &mut String, starts: &[StartRecord]) -> Result<(), AllocError>
    ensures { OnOk result (string_bytes out.new ≡ string_bytes out.old ++ flat_map line_text (flat_map start_record_lines starts.now)) }
{
    for outcome in starts {
        print_start_record(out, outcome)?;
    }
    Ok(())
}

fn print_start_record(out: &mut String, outcome: &StartRecord) -> Result<(), AllocError>
    ensures { OnOk result (string_bytes out.new ≡ string_bytes out.old ++ flat_map line_text (start_record_lines outcome.now)) }
{
    out.push_str("> ")?;
    write_start(out, &outcome.line)?;
    out.push_str("\n")?;
    print_outcome(out, outcome.steps.as_slice(), outcome.answer)
}

fn print_sections(out: &mut String, callers: &[Items<CallRecord>]) -> Result<(), AllocError>
    ensures { OnOk result (string_bytes out.new ≡ string_bytes out.old ++ flat_map line_text (sections_from 0 callers.now)) }
{
    for (caller, calls) in callers.iter().enumerate() {
        print_section(out, caller, calls.as_slice())?;
    }
    Ok(())
}

fn print_section(out: &mut String, caller: usize, calls: &[CallRecord]) -> Result<(), AllocError>
    ensures { OnOk result (string_bytes out.new ≡ string_bytes out.old ++ flat_map line_text (section_lines caller calls.now)) }
{
    writeln!(out, "caller {caller}")?;
    print_calls(out, calls)
}

fn print_calls(out: &mut String, calls: &[CallRecord]) -> Result<(), AllocError>
    ensures { OnOk result (string_bytes out.new ≡ string_bytes out.old ++ flat_map line_text (flat_map call_record_lines calls.now)) }
{
    for outcome in calls {
        print_call_record(out, outcome)?;
    }
    Ok(())
}

fn print_call_record(out: &mut String, outcome: &CallRecord) -> Result<(), AllocError>
    ensures { OnOk result (string_bytes out.new ≡ string_bytes out.old ++ flat_map line_text (call_record_lines outcome.now)) }
{
    out.push_str("> ")?;
    write_command(out, &outcome.command)?;
    out.push_str("\n")?;
    print_outcome(out, outcome.steps.as_slice(), outcome.answer)
}

/// The lines of a record behind its first.
fn print_outcome(out: &mut String, steps: &[RunEntry], answer: Answer) -> Result<(), AllocError>
    ensures { OnOk result (string_bytes out.new ≡ string_bytes out.old ++ flat_map line_text (outcome_lines steps.now answer)) }
{
    print_steps(out, steps)?;
    print_answer_line(out, answer)
}

fn print_steps(out: &mut String, steps: &[RunEntry]) -> Result<(), AllocError>
    ensures { OnOk result (string_bytes out.new ≡ string_bytes out.old ++ flat_map line_text (map entry_words steps.now)) }
{
    for step in steps {
        print_entry(out, step)?;
    }
    Ok(())
}

fn print_entry(out: &mut String, step: &RunEntry) -> Result<(), AllocError>
    ensures { OnOk result (string_bytes out.new ≡ string_bytes out.old ++ line_text (entry_words step.now)) }
{
    let ticket = step.ticket;
    write!(out, "{ticket} ")?;
    write_event(out, &step.event)?;
    out.push_str("\n")
}

fn print_answer_line(out: &mut String, answer: Answer) -> Result<(), AllocError>
    ensures { OnOk result (string_bytes out.new ≡ string_bytes out.old ++ line_text (codes "=" ∷ answer_words answer)) }
{
    out.push_str("= ")?;
    write_answer(out, &answer)?;
    out.push_str("\n")
}

/// The listing and the statistics.
pub fn print_tail(out: &mut String, figures: &Figures) -> Result<(), AllocError>
    ensures { OnOk result (string_bytes out.new ≡ string_bytes out.old ++ tail_text figures.now) }
{
    print_listing(out, figures.listing.as_slice())?;
    print_statistics(out, figures.statistics)
}

fn print_listing(out: &mut String, blocks: &[Listed]) -> Result<(), AllocError>
    ensures { OnOk result (string_bytes out.new ≡ string_bytes out.old ++ flat_map line_text (map listed_words blocks.now)) }
{
    for block in blocks {
        print_listed(out, block)?;
    }
    Ok(())
}

/// A line of the listing.
fn print_listed(out: &mut String, block: &Listed) -> Result<(), AllocError>
    ensures { OnOk result (string_bytes out.new ≡ string_bytes out.old ++ line_text (listed_words block.now)) }
{
    let Listed { a, s, range, zone } = *block;
    let words = [
        Word::Number(a),
        Word::Number(s),
        Word::Range(range),
        Word::Zone(zone),
    ];
    write_sentence(out, Form::Listed, &words)?;
    out.push_str("\n")
}

fn print_statistics(out: &mut String, statistics: Statistics) -> Result<(), AllocError>
    ensures { OnOk result (string_bytes out.new ≡ string_bytes out.old ++ flat_map line_text (statistics_lines statistics)) }
{
    let Statistics {
        blocks_in_use,
        size_in_use,
        max_size_in_use,
        size_allocated,
    } = statistics;
    print_statistic(out, "blocks_in_use", blocks_in_use)?;
    print_statistic(out, "size_in_use", size_in_use)?;
    print_statistic(out, "max_size_in_use", max_size_in_use)?;
    print_statistic(out, "size_allocated", size_allocated)
}

fn print_statistic(out: &mut String, label: &str, value: u64) -> Result<(), AllocError>
    ensures { OnOk result (string_bytes out.new ≡ string_bytes out.old ++ line_text (label.now ∷ decimal value ∷ [])) }
{
    writeln!(out, "{label} {value}")
}
