//! Unit after unit, up to where a call ends.
ghost use Rattle.std.specs.Prelude.{◌≡◌, true, false, [], None, IfOk, IfErr};
ghost use Rattle.law_behavior.specs.Doms.{LedTo, Renders, ends_by};
ghost use Rattle.run_outside.specs.Ends.{fault_in, Ends, Took};
ghost use Rattle.run_outside.specs.Short.{PartBy};
ghost use Rattle.run_machine.specs.Stands.{StandsAt, counting};
ghost use Rattle.run_rounds.specs.Going.{BrokeBy, BrokeUntil, GoesBy, GoesUntil};
ghost use Rattle.run_state.specs.Mirror.{state_of};
ghost use Rattle.run_reports.specs.Counted.{CountsLog};
ghost use Rattle.run_reports.specs.Seen.{limits_of};
ghost use Rattle.run_rounds.specs.Rounds.{CallBroke, RestsAt, RunsOn, WentOn};
ghost use Rattle.run_answers.specs.Untils.{until_of};

use crate::building::rests;
use author_calls::{App, Calls};
use rt_edits::WriteMutations;
use rt_scopes::Known;
use run_answers::{Until, ends, leave};
use run_machine::Machine;
use run_outside::Ended;
use run_reports::{Limits, Report};
use run_state::Stop;
use run_turns::sum;

/// A look, and then unit after unit, up to where the call ends. The report of what was done.
pub fn run_report<A: App, M: WriteMutations>(
    machine: &mut Machine<A>,
    app: &A,
    calls: &mut Calls,
    until: Until,
    limits: Limits,
    sink: &mut M,
) -> Result<Report, Ended>
    // A machine at rest where a program's calls have led does what the definitions say of the call.
    ensures runs { (props : _) (whole : _) (w : _) → RestsAt w machine.old calls.old →
        LedTo (A.meaning app.now) (limits_of limits) props whole w →
        RunsOn (A.meaning app.now) (limits_of limits) w (until_of until)
        (M.taken sink.old) (M.taken sink.new) result machine.new calls.new }
    // For want of memory, or at its sink.
    ensures breaks { IfErr result (λ ended. (props : _) (whole : _) (w : _) →
        fault_in ended ≡ None → RestsAt w machine.old calls.old →
        LedTo (A.meaning app.now) (limits_of limits) props whole w →
        CallBroke (A.meaning app.now) (limits_of limits) w (until_of until)
        (M.taken sink.old) (M.taken sink.new) (PartBy ended)) }
    ensures counts { IfOk result (λ report. CountsLog report) }
    ensures took { IfOk result (λ report. Took (M.taken sink.old) (M.taken sink.new)
        (M.faults sink.old) (M.faults sink.new) report.edits) }
    ensures err { IfErr result (λ ended. Ends limits 0
        (M.taken sink.old) (M.taken sink.new) (M.faults sink.old) (M.faults sink.new) ended) }
{
    match begin_and_run(machine, app, calls, until, limits, sink) {
        Ok(edits) => Ok(machine.report_of(edits)),
        Err(ended) => {
            // What was done is told by no report.
            let _told = machine.report_of(0);
            Err(ended)
        }
    }
}

/// The same, without the report. The answer is how many edits were written.
fn begin_and_run<A: App, M: WriteMutations>(
    machine: &mut Machine<A>,
    app: &A,
    calls: &mut Calls,
    until: Until,
    limits: Limits,
    sink: &mut M,
) -> Result<u64, Ended>
    ensures runs { (props : _) (whole : _) (w : _) → RestsAt w machine.old calls.old →
        LedTo (A.meaning app.now) (limits_of limits) props whole w →
        WentOn (A.meaning app.now) (limits_of limits) w (until_of until)
        (M.taken sink.old) (M.taken sink.new) result machine.new calls.new }
    // For want of memory, or at its sink.
    ensures breaks { IfErr result (λ ended. (props : _) (whole : _) (w : _) →
        fault_in ended ≡ None → RestsAt w machine.old calls.old →
        LedTo (A.meaning app.now) (limits_of limits) props whole w →
        CallBroke (A.meaning app.now) (limits_of limits) w (until_of until)
        (M.taken sink.old) (M.taken sink.new) (PartBy ended)) }
    ensures ok { IfOk result (λ taken. Took (M.taken sink.old) (M.taken sink.new)
        (M.faults sink.old) (M.faults sink.new) taken) }
    ensures err { IfErr result (λ ended. Ends limits 0
        (M.taken sink.old) (M.taken sink.new) (M.faults sink.old) (M.faults sink.new) ended) }
{
    machine.units = 0;
    machine.default_enabled = true;
    machine.scopes.state.look(machine.scopes.alloc)?;
    let edits = run(machine, app, calls, until, limits, sink)?;
    leave(machine.scopes.alloc, &mut machine.scopes.state, until)?;
    Ok(edits)
}

/// Unit after unit, up to where the call ends: a render goes on from where the processing of events
/// ends. The answer is how many edits were written.
fn run<A: App, M: WriteMutations>(
    machine: &mut Machine<A>,
    app: &A,
    calls: &mut Calls,
    until: Until,
    limits: Limits,
    sink: &mut M,
) -> Result<u64, Ended>
    ensures runs { (r : _) →
        StandsAt (A.meaning app.now) (limits_of limits) (counting r calls.old) [] machine.old →
        GoesBy (A.meaning app.now) (limits_of limits) (counting r calls.new) (until_of until)
        (M.taken sink.old) (M.taken sink.new) machine.old machine.new result }
    ensures breaks { IfErr result (λ ended. (r : _) → fault_in ended ≡ None →
        StandsAt (A.meaning app.now) (limits_of limits) (counting r calls.old) [] machine.old →
        BrokeBy (A.meaning app.now) (limits_of limits) (counting r calls.new) (until_of until)
        (M.taken sink.old) (M.taken sink.new) ended machine.old) }
    ensures ok { IfOk result (λ taken. Took (M.taken sink.old) (M.taken sink.new)
        (M.faults sink.old) (M.faults sink.new) taken) }
    ensures err { IfErr result (λ ended. Ends limits 0
        (M.taken sink.old) (M.taken sink.new) (M.faults sink.old) (M.faults sink.new) ended) }
{
    match until {
        Until::Events => go_on(machine, app, calls, Until::Events, limits, sink),
        Until::Renders => render(machine, app, calls, limits, sink),
        Until::Settles => go_on(machine, app, calls, Until::Settles, limits, sink),
    }
}

/// Processes events, and goes on from there until nothing is seen or queued. The answer is how many
/// edits were written.
fn render<A: App, M: WriteMutations>(
    machine: &mut Machine<A>,
    app: &A,
    calls: &mut Calls,
    limits: Limits,
    sink: &mut M,
) -> Result<u64, Ended>
    ensures renders { (r : _) →
        StandsAt (A.meaning app.now) (limits_of limits) (counting r calls.old) [] machine.old →
        GoesBy (A.meaning app.now) (limits_of limits) (counting r calls.new) Renders
        (M.taken sink.old) (M.taken sink.new) machine.old machine.new result }
    ensures breaks { IfErr result (λ ended. (r : _) → fault_in ended ≡ None →
        StandsAt (A.meaning app.now) (limits_of limits) (counting r calls.old) [] machine.old →
        BrokeBy (A.meaning app.now) (limits_of limits) (counting r calls.new) Renders
        (M.taken sink.old) (M.taken sink.new) ended machine.old) }
    ensures ok { IfOk result (λ taken. Took (M.taken sink.old) (M.taken sink.new)
        (M.faults sink.old) (M.faults sink.new) taken) }
    ensures err { IfErr result (λ ended. Ends limits 0
        (M.taken sink.old) (M.taken sink.new) (M.faults sink.old) (M.faults sink.new) ended) }
{
    let first = go_on(machine, app, calls, Until::Events, limits, sink)?;
    let more = go_on(machine, app, calls, Until::Renders, limits, sink)?;
    Ok(sum(first, more)?)
}

/// Goes on until the call ends. The answer is how many edits were written.
fn go_on<A: App, M: WriteMutations>(
    machine: &mut Machine<A>,
    app: &A,
    calls: &mut Calls,
    until: Until,
    limits: Limits,
    sink: &mut M,
) -> Result<u64, Ended>
    ensures goes { (r : _) (edits : _) →
        StandsAt (A.meaning app.now) (limits_of limits) (counting r calls.old) edits machine.old →
        GoesUntil (A.meaning app.now) (limits_of limits) (counting r calls.new) (until_of until)
        edits
        (M.taken sink.old) (M.taken sink.new) machine.old machine.new result }
    ensures breaks { IfErr result (λ ended. (r : _) (edits : _) → fault_in ended ≡ None →
        StandsAt (A.meaning app.now) (limits_of limits) (counting r calls.old) edits machine.old →
        BrokeUntil (A.meaning app.now) (limits_of limits) (counting r calls.new)
        (until_of until) edits
        (M.taken sink.old) (M.taken sink.new) ended machine.old) }
    ensures ok { IfOk result (λ taken. Took (M.taken sink.old) (M.taken sink.new)
        (M.faults sink.old) (M.faults sink.new) taken) }
    ensures err { IfErr result (λ ended. Ends limits 0
        (M.taken sink.old) (M.taken sink.new) (M.faults sink.old) (M.faults sink.new) ended) }
{
    let mut edits = 0u64;
    let mut known = Known::new(machine.scopes.alloc);
    for _turn in 0..u64::MAX {
        if ended(machine, until) {
            return Ok(edits);
        }
        // Something is owed or at work here, so that a turn has something to do.
        let Some(written) = machine.turn_knowing(app, calls, limits, sink, &mut known)? else {
            return Err(Ended::Run(Stop::OutOfMemory));
        };
        edits = sum(edits, written)?;
    }
    Err(Ended::Run(Stop::OutOfMemory))
}

/// Whether nothing is at work, and the call ends here.
fn ended<A: App>(machine: &Machine<A>, until: Until) -> bool
    ensures idle { result ≡ true → (machine.now.work ≡ []) × (machine.now.first ≡ None) }
    ensures ended { result ≡ true → (g : _) →
        ends_by (until_of until) (state_of g machine.now.scopes.state) ≡ true }
    ensures goes { result ≡ false → machine.now.work ≡ [] → machine.now.first ≡ None → (g : _) →
        ends_by (until_of until) (state_of g machine.now.scopes.state) ≡ false }
{
    rests(machine) && ends(&machine.scopes.state, until)
}
