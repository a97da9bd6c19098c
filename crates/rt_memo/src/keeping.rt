//! A session whose memos and resources are kept.
ghost use Rattle.std.specs.Prelude.{◌≡◌, ◌≤◌, None, Some, map, IfOk, IfErr};
ghost use Rattle.law_headline.specs.Carried.{CarriesAnew};
ghost use Rattle.law_minding.specs.Sessions.{MemosKept};
ghost use Rattle.rt_model.specs.Causes.{IsValid};
ghost use Rattle.run_reports.specs.Seen.{fault_of, input_of, limits_of, report_of};
ghost use Rattle.run_outside.specs.Ends.{Causes};
ghost use Rattle.run_outside.specs.Sessions.{Broken, CameAt, Headlined};
ghost use Rattle.run_outside.specs.Short.{PartOf};

use author_deriving::{HasMemo, MemoApp};
use law_minding::sessions_keep_memos;
use rt_edits::WriteMutations;
use rt_session::{Input, Limits, Report, SessionFault, session};
use rt_values::List;
use std::alloc::Global;

/// Builds an application and settles, and then takes in each input and settles, as `session` does.
/// The edits go to the sink. The reports of the build and of each input, after each of which memos
/// and resources that nobody else touches are kept; a fault comes with those that were finished.
pub fn memo_session<A: MemoApp, M: WriteMutations>(
    alloc: Global,
    app: A,
    root_props: A::Props,
    inputs: List<Input<A>>,
    sink: &mut M,
    limits: Limits,
) -> Result<List<Report>, SessionFault>
    // Each poll of a memo or of a resource is that of the definitions. One that nobody else touches
    // is its formula's value after each report where its task is active.
    ensures memos { IfOk result (λ reports.
        MemosKept (A.Memos.formulas (A.memos app)) (A.meaning app) A.Memos.state
        root_props (map input_of inputs) (limits_of limits) (map report_of reports)) }

    // All that holds of `session`.
    ensures headline { IfOk result (λ reports.
        Headlined (A.meaning app) root_props (map input_of inputs) (limits_of limits)
        (M.taken sink.old) (M.taken sink.new) (map report_of reports)) }
    ensures came_to { IfErr result (λ refused. (fault : _) →
        fault_of refused.fault ≡ Some fault →
        CameAt (A.meaning app) root_props (map input_of inputs) (limits_of limits)
        (M.taken sink.old) (M.taken sink.new) (map report_of refused.reports) fault) }
    ensures carried { IfOk result (λ reports.
        CarriesAnew (A.meaning app) root_props (map input_of inputs) (map report_of reports)) }
    ensures broke_off { IfErr result (λ refused.
        fault_of refused.fault ≡ None →
        Broken (A.meaning app) root_props (map input_of inputs) (limits_of limits)
        (M.taken sink.old) (M.taken sink.new) (map report_of refused.reports)
        (PartOf refused.fault)) }
    ensures refused { IfErr result (λ refused.
        Causes limits (M.faults sink.old) (M.faults sink.new) refused.fault) }
    ensures counted { M.faults sink.old ≤ M.faults sink.new }
    ensures valid { IfOk result (λ reports.
        IsValid (A.meaning app) root_props (map input_of inputs) (limits_of limits)) }
    ensures completes { IsValid (A.meaning app) root_props (map input_of inputs) (limits_of limits) →
        IfErr result (λ refused. fault_of refused.fault ≡ None) }
{
    sessions_keep_memos::<
        A::Component,
        A::Props,
        A::Value,
        A::Handler,
        A::TaskState,
        A::Effect,
        A::Payload,
        <A::Memos as HasMemo<A>>::Formula,
    >();
    session(alloc, app, root_props, inputs, sink, limits)
}
