//! From a trace to a run of it.

ghost use Rattle.std.specs.Prelude.{◌≡◌, true, [], ◌∷◌, IfOk, OnOk, IsTrue, map};
ghost use Rattle.std.specs.List.{list_all};
ghost use Rattle.mz_lawful.specs.LawfulRun.{IsLawfulRun};
ghost use Rattle.mz_lawful.specs.Tail.{tail_of};
ghost use Rattle.mz_trace.specs.RunForms.{IsRun, IsTail};
ghost use Rattle.mz_trace.specs.RunTexts.{round_of};
ghost use Rattle.mz_trace.specs.Texts.{IsTrace};
ghost use Rattle.mz_trace.specs.RunForms.{entry_fits};
ghost use Rattle.mz_session.specs.Sessions.{IsKept};
ghost use Rattle.mz_session.specs.Serving.{Serves};
ghost use Rattle.mz_run.specs.RunLaws.{RunLaws};
ghost use Rattle.mz_run.specs.Built.{IsBuilt, is_built_round, is_built_command};
ghost use Rattle.mz_run.specs.Coming.{CanCome, commands_in, commands_in_rounds};
ghost use Rattle.mz_run.specs.Turns.{step_of, Turn, Turns, RoundTurns, RoundsTurn};

use crate::told;
use mz_base::Items;
use mz_events::Entry;
use mz_events::laws::entries::tickets_are_indices;
use mz_io::Gate;
use mz_record::laws::later_entries;
use mz_session::Session;
use mz_trace::{Answer, CallRecord, Command, Figures, Round, Run, RunEntry, RunRound, Trace};
use std::alloc::{AllocError, Global};
use std::sync::Wait;

/// Runs the commands of a trace, and tells what became of each, and what stands at the end.
pub fn serve<R: Wait + Sync, G: Gate>(
    rt: &R,
    alloc: Global,
    trace: &Trace,
    gate: &G,
) -> Result<(Run, Figures), AllocError>
    requires trace { IsTrace trace.now }
    requires built { IsBuilt trace.now }
    ensures lawful { IfOk result (λ pair. IsLawfulRun trace.now pair.0) }
    ensures tail { IfOk result (λ pair. pair.1 ≡ tail_of pair.0) }
    ensures has_text { IfOk result (λ pair. IsRun pair.0 × IsTail pair.1) }
{
    of_runs();
    let mut session = Session::open(alloc, &trace.profile)?;
    let rounds = serve_rounds(rt, alloc, &mut session, trace.rounds.as_slice(), gate)?;
    let figures = session.tail(alloc)?;
    told::listing(figures.listing.as_slice());
    told::numbers(figures.statistics);
    let run = Run {
        profile: trace.profile,
        rounds: Items::of(rounds),
    };
    Ok((run, figures))
}

// The laws of histories on which this rests hold, all together.
fn of_runs()
    ensures { RunLaws }
{
    tickets_are_indices();
    later_entries();
}

// Serves rounds, one after another.
fn serve_rounds<R: Wait + Sync, G: Gate>(
    rt: &R,
    alloc: Global,
    session: &mut Session,
    rounds: &[Round],
    gate: &G,
) -> Result<Vec<RunRound>, AllocError>
    requires built { IsTrue (list_all is_built_round rounds.now) }
    requires kept { IsKept session.old }
    requires can { CanCome session.old (commands_in_rounds rounds.now) }
    ensures kept { OnOk result (IsKept session.new) }
    ensures turns { IfOk result (λ rs. RoundsTurn session.old rs.items session.new) }
    ensures rounds { IfOk result (λ rs. map round_of rs.items ≡ rounds.now) }
{
    let mut served = Vec::new(alloc);
    for round in rounds {
        let outcome = serve_round(rt, alloc, session, round, gate)?;
        served.push(outcome)?;
    }
    Ok(served)
}

// Serves the commands of a round, which are those of the one caller.
fn serve_round<R: Wait + Sync, G: Gate>(
    rt: &R,
    alloc: Global,
    session: &mut Session,
    round: &Round,
    gate: &G,
) -> Result<RunRound, AllocError>
    requires built { IsTrue (is_built_round round.now) }
    requires kept { IsKept session.old }
    requires can { CanCome session.old (commands_in round.now) }
    ensures kept { OnOk result (IsKept session.new) }
    ensures turns { IfOk result (λ r. RoundTurns session.old r session.new) }
    ensures round { IfOk result (λ r. round_of r ≡ round.now) }
{
    let [commands] = round.commands.as_slice() else {
        unreachable!();
    };
    let records = serve_commands(rt, alloc, session, commands.as_slice(), gate)?;
    session.deliver(alloc)?;
    let callers = vec![in alloc; Items::of(records)]?;
    Ok(RunRound {
        starts: Items::new(alloc),
        callers: Items::of(callers),
    })
}

// Serves the commands of the one caller, each behind the gate.
fn serve_commands<R: Wait + Sync, G: Gate>(
    rt: &R,
    alloc: Global,
    session: &mut Session,
    commands: &[Command],
    gate: &G,
) -> Result<Vec<CallRecord>, AllocError>
    requires built { IsTrue (list_all is_built_command commands.now) }
    requires kept { IsKept session.old }
    requires can { CanCome session.old commands.now }
    ensures kept { OnOk result (IsKept session.new) }
    ensures turns { IfOk result (λ ds. Turns session.old ds.items session.new) }
    ensures commands { IfOk result (λ ds. map (λ d. d.command) ds.items ≡ commands.now) }
{
    let mut records = Vec::new(alloc);
    for (index, command) in commands.iter().enumerate() {
        gate.pass(rt, 0, index as u64);
        let record = serve_command(rt, alloc, session, command)?;
        records.push(record)?;
    }
    Ok(records)
}

// Serves a command, and tells what became of it.
fn serve_command<R: Wait>(
    rt: &R,
    alloc: Global,
    session: &mut Session,
    command: &Command,
) -> Result<CallRecord, AllocError>
    requires built { IsTrue (is_built_command command.now) }
    requires kept { IsKept session.old }
    requires can { CanCome session.old (command.now ∷ []) }
    ensures turn { IfOk result (λ d. Turn session.old d session.new) }
    ensures command { IfOk result (λ d. d.command ≡ command.now) }
{
    let before = session.history().len();
    let answer = told::answer(answer_to(rt, session, command)?);
    let steps = steps_of(alloc, &session.history()[before..])?;
    Ok(CallRecord {
        command: *command,
        steps: Items::of(steps),
        answer,
    })
}

// Has the session serve a command.
fn answer_to<R: Wait>(
    rt: &R,
    session: &mut Session,
    command: &Command,
) -> Result<Answer, AllocError>
    requires built { IsTrue (is_built_command command.now) }
    requires kept { IsKept session.old }
    requires can { CanCome session.old (command.now ∷ []) }
    ensures { IfOk result (λ answer. Serves session.old command.now answer session.new) }
{
    match *command {
        Command::Malloc { name, n } => session.malloc(rt, name, n),
        Command::Calloc { name, n, m } => session.calloc(rt, name, n, m),
        Command::Valloc { name, n } => session.valloc(rt, name, n),
        Command::Memalign { name, al, n } => session.memalign(rt, name, al, n),
        Command::Realloc { names, n } => session.realloc(rt, names, n),
        Command::Free { name } => session.free(rt, name),
        Command::FreeAt { name, off } => session.free_at(rt, name, off),
        Command::SizedFree { name, n } => session.free_of_size(rt, name, n),
        Command::Size { name } => Ok(session.size(name)),
        Command::Fill { name, byte } => Ok(session.fill(name, byte)),
        Command::Show { name, off, count } => Ok(session.show(name, off, count)),
        Command::Link { name, off, target } => Ok(session.link(name, off, target)),
        Command::Give { name, to, given } => session.give(name, to, given),
        Command::Batch { name, count, n } => session.batch(rt, name, count, n),
        Command::Unbatch { name } => session.unbatch(rt, name),
        Command::ZoneFree { .. } | Command::Use { .. } => unreachable!(),
    }
}

// Entries as a record has them.
fn steps_of(alloc: Global, entries: &[Entry]) -> Result<Vec<RunEntry>, AllocError>
    ensures steps { IfOk result (λ steps. steps.items ≡ map step_of entries.now) }
    ensures told { IfOk result (λ steps. list_all entry_fits steps.items ≡ true) }
{
    let mut steps = Vec::with_capacity(alloc, entries.len())?;
    for entry in entries {
        let step = RunEntry {
            ticket: entry.ticket,
            event: entry.event,
        };
        told::step(step);
        steps.push(step)?;
    }
    Ok(steps)
}
