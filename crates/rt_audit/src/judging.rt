//! The verdict on a recorded log.
ghost use Rattle.std.specs.Prelude.{◌≡◌, ℕ, suc, ◌+◌, ◌<◌, ◌∷◌, length, map, drop, IfOk, IfNone};
ghost use Rattle.rt_model.specs.Replay.{first_state, ones, start};
ghost use Rattle.run_machine.specs.Machines.{IsFresh};
ghost use Rattle.run_machine.specs.Stands.{Follows};
ghost use Rattle.run_reports.specs.Seen.{entry_of, input_of, limits_of};
ghost use Rattle.run_state.specs.Mirror.{at_first, state_of};
ghost use Rattle.lang_rows.specs.Verdicts.{verdict};
ghost use Rattle.rt_audit.specs.Finding.{boundless};
ghost use Rattle.rt_audit.specs.Judging.{verdict_of, ended, AfterFault, ListJudged, Reaches, StepsOn};

use crate::comparing::{list_at, opened};
use crate::following::follow;
use crate::verdict::Verdict;
use author_calls::{App, Calls};
use rt_values::{List, OutOfMemory};
use run_machine::Machine;
use run_reports::{Entry, Input};
use run_state::Stop;
use std::alloc::Global;

/// Where the build's own call stopped: at a fault, its entry is the last one that can be right.
fn after_stop(stop: Stop) -> Result<Option<u64>, OutOfMemory>
    ensures after { IfOk result (AfterFault stop) }
{
    match stop {
        Stop::Fault(_) => Ok(Some(1)),
        Stop::OutOfMemory => Err(OutOfMemory),
    }
}

/// The list of the build: the entry from which on it isn't good.
fn judge_build<A: App>(
    machine: &mut Machine<A>,
    app: &A,
    calls: &mut Calls,
    list: &[Entry],
) -> Result<Option<u64>, OutOfMemory>
    ensures judged { (props : _) (inputs : _) → IsFresh machine.old →
        state_of at_first machine.old.scopes.state
        ≡ first_state (A.meaning app.now).root props ones →
        IfOk result (ListJudged (A.meaning app.now) (limits_of boundless) props inputs
        0 (start (A.meaning app.now) props inputs) inputs (map entry_of list.now) machine.new) }
{
    let Some(rest) = opened(list, Entry::Build) else {
        return Ok(Some(0));
    };
    match machine.build(app, calls) {
        Ok(()) => follow(machine, app, calls, rest),
        Err(stop) => after_stop(stop),
    }
}

/// The list of an input, by its number from 1: the entry from which on it isn't good.
fn judge_input<A: App>(
    machine: &mut Machine<A>,
    app: &A,
    calls: &mut Calls,
    number: u64,
    input: Input<A>,
    list: &[Entry],
) -> Result<Option<u64>, OutOfMemory>
    ensures judged { (props : _) (inputs left : _) (taken : ℕ) (last : _) → number ≡ taken + 1 →
        Follows (A.meaning app.now) (limits_of boundless) props inputs
        (input_of input ∷ left) taken last machine.old →
        IfOk result (ListJudged (A.meaning app.now) (limits_of boundless) props inputs
        number last left (map entry_of list.now) machine.new) }
{
    let Some(rest) = opened(list, Entry::Input(number)) else {
        return Ok(Some(0));
    };
    machine.receive(input)?;
    follow(machine, app, calls, rest)
}

/// The list of an input in a log, whose lists before it were good; None where it is good, too.
fn judge_next<A: App>(
    machine: &mut Machine<A>,
    app: &A,
    calls: &mut Calls,
    report: usize,
    input: Input<A>,
    log: &[List<Entry>],
) -> Result<Option<Verdict>, OutOfMemory>
    ensures judged { (props : _) (all left : _) (taken : ℕ) → report ≡ suc taken →
        Reaches (A.meaning app.now) (limits_of boundless) props all
        (map (map entry_of) log.now) taken (input_of input ∷ left) machine.old →
        IfOk result (StepsOn (A.meaning app.now) (limits_of boundless) props all
        (map (map entry_of) log.now) report left machine.new) }
    ensures within { IfOk result (λ next. IfNone next (report < length log.now)) }
{
    let Some(list) = list_at(log, report) else {
        return Ok(Some(Verdict::Accepted));
    };
    let number = report as u64;
    let stops = judge_input(machine, app, calls, number, input, list)?;
    match stops {
        Some(entry) => Ok(Some(Verdict::Refused {
            report: number,
            entry,
        })),
        None => Ok(None),
    }
}

/// The verdict where no input is left, and the lists before this one were good. Without an input a
/// list is refused at its first entry.
fn at_last(report: usize, lists: usize) -> Verdict
    ensures { result ≡ ended report lists }
{
    if report < lists {
        Verdict::Refused {
            report: report as u64,
            entry: 0,
        }
    } else {
        Verdict::Accepted
    }
}

/// The lists of inputs, after that of the build was good.
fn judge_inputs<A: App>(
    machine: &mut Machine<A>,
    app: &A,
    calls: &mut Calls,
    inputs: List<Input<A>>,
    log: &[List<Entry>],
) -> Result<Verdict, OutOfMemory>
    ensures judged { (props : _) (all : _) →
        Reaches (A.meaning app.now) (limits_of boundless) props all
        (map (map entry_of) log.now) 0 (map input_of inputs) machine.old →
        IfOk result (λ found. verdict_of found
        ≡ verdict (A.meaning app.now) props all (map (map entry_of) log.now)) }
{
    let mut report = 1;
    for input in inputs.into_vec() {
        let next = judge_next(machine, app, calls, report, input, log)?;
        match next {
            None => report += 1,
            Some(found) => return Ok(found),
        }
    }
    Ok(at_last(report, log.len()))
}

/// Whether the runtime could have made a log: a list of entries for the build, and one for each
/// input. The application is run beside it, turn by turn, as far as the log is good and no further.
pub fn audit<A: App>(
    alloc: Global,
    app: &A,
    props: A::Props,
    inputs: List<Input<A>>,
    log: &[List<Entry>],
) -> Result<Verdict, OutOfMemory>
    // The verdict is the one that the log deserves.
    ensures verdict { IfOk result (λ found. verdict_of found
        ≡ verdict (A.meaning app.now) props (map input_of inputs) (map (map entry_of) log.now)) }
{
    let Some(list) = list_at(log, 0) else {
        return Ok(Verdict::Accepted);
    };
    let (mut machine, mut calls) = Machine::start(alloc, app, props)?;
    judge_all(&mut machine, app, &mut calls, inputs, list, log)
}

/// The verdict on all lists, by a machine that was started; that of the build is the first one.
fn judge_all<A: App>(
    machine: &mut Machine<A>,
    app: &A,
    calls: &mut Calls,
    inputs: List<Input<A>>,
    list: &[Entry],
    log: &[List<Entry>],
) -> Result<Verdict, OutOfMemory>
    ensures judged { (props : _) → IsFresh machine.old →
        state_of at_first machine.old.scopes.state
        ≡ first_state (A.meaning app.now).root props ones →
        drop 0 (map (map entry_of) log.now)
        ≡ map entry_of list.now ∷ drop 1 (map (map entry_of) log.now) →
        IfOk result (λ found. verdict_of found
        ≡ verdict (A.meaning app.now) props (map input_of inputs) (map (map entry_of) log.now)) }
{
    let stops = judge_build(machine, app, calls, list)?;
    match stops {
        Some(entry) => Ok(Verdict::Refused { report: 0, entry }),
        None => judge_inputs(machine, app, calls, inputs, log),
    }
}
