//! A session: the build of an application, and the inputs that follow it.
ghost use Rattle.std.specs.Prelude.{◌≡◌, ◌≤◌, [], None, Some, map, IfOk, IfErr, OnOk};
ghost use Rattle.law_headline.specs.Carried.{CarriesAnew};
ghost use Rattle.rt_model.specs.Causes.{IsValid};
ghost use Rattle.rt_model.specs.Replay.{first_state, ones};
ghost use Rattle.run_reports.specs.Seen.{fault_of, input_of, limits_of, report_of};
ghost use Rattle.run_reports.specs.Counted.{edits_in};
ghost use Rattle.run_state.specs.Mirror.{at_first, state_of};
ghost use Rattle.run_outside.specs.Ends.{Causes, Took, Ends};
ghost use Rattle.run_machine.specs.Machines.{IsFresh};
ghost use Rattle.run_outside.specs.Sessions.{Broken, CameAt, Headlined};
ghost use Rattle.run_outside.specs.Short.{PartOf};
ghost use Rattle.run_machine.specs.Stands.{RunsAs};

use crate::laws::laws_of;
use author_calls::{App, Calls};
use rt_edits::WriteMutations;
use rt_values::List;
use run_machine::Machine;
use run_outside::Ended;
use run_reports::{Input, Limits, Report, SessionFault};
use std::alloc::Global;

/// Builds an application and settles, and then takes in each input and settles. The edits go to the
/// sink. The reports of the build and of each input; a fault comes with those that were finished.
pub fn session<A: App, M: WriteMutations>(
    alloc: Global,
    app: A,
    root_props: A::Props,
    inputs: List<Input<A>>,
    sink: &mut M,
    limits: Limits,
) -> Result<List<Report>, SessionFault>
    // The headline of what was done, and of what was finished before a fault.
    ensures headline { IfOk result (λ reports.
        Headlined (A.meaning app) root_props (map input_of inputs) (limits_of limits)
        (M.taken sink.old) (M.taken sink.new) (map report_of reports)) }
    ensures came_to { IfErr result (λ refused. (fault : _) →
        fault_of refused.fault ≡ Some fault →
        CameAt (A.meaning app) root_props (map input_of inputs) (limits_of limits)
        (M.taken sink.old) (M.taken sink.new) (map report_of refused.reports) fault) }

    // No number comes that an earlier edit carried, but those of hidden nodes that are shown again.
    ensures carried { IfOk result (λ reports.
        CarriesAnew (A.meaning app) root_props (map input_of inputs) (map report_of reports)) }

    // Where memory was wanting, or the sink failed, it took the edits of the reports, those of the
    // units that were finished since, and a front of those of the unit that was cut.
    ensures broke_off { IfErr result (λ refused.
        fault_of refused.fault ≡ None →
        Broken (A.meaning app) root_props (map input_of inputs) (limits_of limits)
        (M.taken sink.old) (M.taken sink.new) (map report_of refused.reports)
        (PartOf refused.fault)) }

    // A fault comes for its cause: a failure of the sink is counted.
    ensures refused { IfErr result (λ refused.
        Causes limits (M.faults sink.old) (M.faults sink.new) refused.fault) }
    ensures counted { M.faults sink.old ≤ M.faults sink.new }

    // Inputs of which a session finished come to no fault, and inputs that come to none end early
    // only for want of memory or a sink that fails.
    ensures valid { IfOk result (λ reports.
        IsValid (A.meaning app) root_props (map input_of inputs) (limits_of limits)) }
    ensures completes { IsValid (A.meaning app) root_props (map input_of inputs) (limits_of limits) →
        IfErr result (λ refused. fault_of refused.fault ≡ None) }
{
    // What was done is the headline, whether it finished, came to a fault or broke off.
    laws_of(&app);
    let mut reports = List::new(alloc);
    match run_all(alloc, &app, root_props, inputs, sink, limits, &mut reports) {
        Ok(()) => Ok(reports),
        Err(ended) => Err(SessionFault {
            fault: ended.fault(),
            reports,
        }),
    }
}

/// The build and all inputs, each with its report.
fn run_all<A: App, M: WriteMutations>(
    alloc: Global,
    app: &A,
    root_props: A::Props,
    inputs: List<Input<A>>,
    sink: &mut M,
    limits: Limits,
    reports: &mut List<Report>,
) -> Result<(), Ended>
    requires empty { reports.old ≡ [] }
    ensures took { OnOk result (Took (M.taken sink.old) (M.taken sink.new)
        (M.faults sink.old) (M.faults sink.new) (edits_in reports.new)) }
    ensures err { IfErr result (λ ended. Ends limits (edits_in reports.new)
        (M.taken sink.old) (M.taken sink.new) (M.faults sink.old) (M.faults sink.new) ended) }
    ensures runs { RunsAs (A.meaning app.now) (limits_of limits) root_props (map input_of inputs)
        (M.taken sink.old) (M.taken sink.new) reports.new result }
{
    let (mut machine, mut calls) = Machine::start(alloc, app, root_props)?;
    run_on(app, &mut machine, &mut calls, inputs, sink, limits, reports)
}

/// The same on a machine that was started.
fn run_on<A: App, M: WriteMutations>(
    app: &A,
    machine: &mut Machine<A>,
    calls: &mut Calls,
    inputs: List<Input<A>>,
    sink: &mut M,
    limits: Limits,
    reports: &mut List<Report>,
) -> Result<(), Ended>
    requires empty { reports.old ≡ [] }
    ensures took { OnOk result (Took (M.taken sink.old) (M.taken sink.new)
        (M.faults sink.old) (M.faults sink.new) (edits_in reports.new)) }
    ensures err { IfErr result (λ ended. Ends limits (edits_in reports.new)
        (M.taken sink.old) (M.taken sink.new) (M.faults sink.old) (M.faults sink.new) ended) }
    ensures runs { (props : _) → IsFresh machine.old
        → state_of at_first machine.old.scopes.state ≡ first_state (A.meaning app.now).root props ones
        → RunsAs (A.meaning app.now) (limits_of limits) props (map input_of inputs)
        (M.taken sink.old) (M.taken sink.new) reports.new result }
{
    let built = machine.first_report(app, calls, limits, sink)?;
    reports.push(built)?;
    let mut taken = 0u64;
    for input in inputs.into_vec() {
        taken = machine.take_one(app, calls, taken, input, limits, sink, reports)?;
    }
    Ok(())
}
