//! A posted session: threads post while the session takes in what the inbox's owner drains.
ghost use Rattle.std.specs.Prelude.{◌≡◌, ◌≤◌, [], Some, None, List as Items, length, map, All, IfOk, IfErr, ℕ};
ghost use Rattle.run_outside.specs.Ends.{Causes, Explains, fault_in};
ghost use Rattle.run_outside.specs.Sessions.{CameAt, Headlined};
ghost use Rattle.run_reports.specs.declared.limits.Limits.{Limits};
ghost use Rattle.rt_model.specs.Causes.{IsValid};
ghost use Rattle.rt_model.specs.Merge.{ValidOverCuts, drained};
ghost use Rattle.run_reports.specs.Seen.{fault_of, limits_of, report_of};
ghost use Rattle.run_outside.specs.Short.{PartBy, PartOf};
ghost use Rattle.rt_model.specs.Document.{Edit};
ghost use Rattle.run_reports.specs.declared.fault.Fault.TheVariants as faults;
ghost use Rattle.rt_session.specs.Meetings.{HoldsAs};
ghost use Rattle.rt_session.specs.Sittings.{IsWanting};
ghost use Rattle.rt_session.specs.Posted.{BreaksOff, TookAll, TookFronts, drains_of, lists_of};

use crate::laws::laws_of;
use crate::meeting::hold;
use crate::sitting::Sitting;
use author_calls::App;
use rt_edits::WriteMutations;
use rt_inbox::{Gate, Msg, Post, Taken};
use rt_values::{List, OutOfMemory};
use run_outside::Ended;
use run_reports::{Fault, Limits, Report};
use std::alloc::Global;
use std::sync::Wait;
use std::thread::Threads;

/// What a posted session took and told.
#[derive(Debug, Drop)]
pub struct Posted {
    /// The drains that had messages, in order, and behind them what was left, in pieces.
    pub drains: List<List<Msg>>,
    /// The build's report, and one for each drain.
    pub reports: List<Report>,
    pub inbox: Taken,
}

/// Why a posted session ends without an answer.
#[derive(Debug, Drop)]
pub struct PostedFault {
    pub fault: Fault,
    /// The drains so far, the one at work included; where memory was wanting it may be missing.
    pub drains: List<List<Msg>>,
    /// The reports that were finished.
    pub reports: List<Report>,
}

/// Starts a thread for each list of posts, builds and settles, and then drains and takes in what was
/// drained, until all is taken or 1,000 drains found nothing. Then it joins the threads, ends the
/// inbox, and takes in what was left. The edits go to the sink. Where a thread can't be started its
/// list is posted all the same. It may wait, and a gate may hold it for ever.
pub fn session_posted<R: Threads + Wait + Sync, A: App, G: Gate, M: WriteMutations>(
    rt: &R,
    alloc: Global,
    app: A,
    root_props: A::Props,
    posts: List<List<Post>>,
    gate: &G,
    sink: &mut M,
    limits: Limits,
) -> Result<Posted, PostedFault>
    requires some { 1 ≤ length posts }
    requires few { length posts ≤ 1000 }
    requires short { All (λ list. length list ≤ 1000000) posts }
    requires drain { 1 ≤ limits.drain }

    // The headline over the drains, which are a cut of a merge of the posts.
    ensures headline { IfOk result (λ posted.
        Headlined (A.meaning app) root_props (drained (drains_of posted.drains)) (limits_of limits)
        (M.taken sink.old) (M.taken sink.new) (map report_of posted.reports)) }
    ensures took_all { IfOk result (λ posted.
        TookAll posts limits.drain posted.drains posted.inbox) }

    // A fault of the definitions is come to over the drains carried. Where memory was wanting, or the
    // sink failed, the session broke off there.
    ensures came_to { IfErr result (λ refused. (fault : _) →
        fault_of refused.fault ≡ Some fault →
        CameAt (A.meaning app) root_props (drained (drains_of refused.drains)) (limits_of limits)
        (M.taken sink.old) (M.taken sink.new) (map report_of refused.reports) fault) }
    ensures broke_off { IfErr result (λ refused.
        fault_of refused.fault ≡ None →
        BreaksOff (A.meaning app) root_props (drained (drains_of refused.drains)) (limits_of limits)
        (M.taken sink.old) (M.taken sink.new) (map report_of refused.reports) refused.fault) }
    ensures took_fronts { IfErr result (λ refused.
        TookFronts posts limits.drain refused.drains refused.fault) }

    // A fault comes for its cause: a failure of the sink is counted.
    ensures refused { IfErr result (λ refused.
        Causes limits (M.faults sink.old) (M.faults sink.new) refused.fault) }
    ensures counted { M.faults sink.old ≤ M.faults sink.new }

    // Drains of which a session finished come to no fault. Where no cut of no merge of the posts
    // comes to one, it ends early only for want of memory or a sink that fails.
    ensures valid { IfOk result (λ posted.
        IsValid (A.meaning app) root_props (drained (drains_of posted.drains)) (limits_of limits)) }
    ensures completes { ValidOverCuts (A.meaning app) root_props (lists_of posts) (limits_of limits) →
        IfErr result (λ refused. fault_of refused.fault ≡ None) }
{
    // What was done is the headline, whether it finished, came to a fault or broke off.
    laws_of(&app);
    let mut drains = List::new(alloc);
    let mut reports = List::new(alloc);
    match run_posted(
        rt,
        alloc,
        &app,
        root_props,
        &posts,
        gate,
        sink,
        limits,
        &mut drains,
        &mut reports,
    ) {
        Ok(inbox) => Ok(Posted {
            drains,
            reports,
            inbox,
        }),
        Err(ended) => Err(PostedFault {
            fault: fault_for(ended),
            drains,
            reports,
        }),
    }
}

/// The fault that is answered for an end.
fn fault_for(ended: Ended) -> Fault
    ensures causes { (limits : Limits) (before after : ℕ) →
        Explains limits before after ended → Causes limits before after result }
    ensures of { fault_of result ≡ fault_in ended }
    ensures parts { (taken edits : Items Edit) → PartBy ended taken edits → PartOf result taken edits }
    ensures wants { IsWanting ended → result ≡ faults.OutOfMemory }
{
    if ended.wants_memory() {
        Fault::OutOfMemory
    } else {
        ended.fault()
    }
}

/// The whole of a posted session, with its drains and its reports.
fn run_posted<R: Threads + Wait + Sync, A: App, G: Gate, M: WriteMutations>(
    rt: &R,
    alloc: Global,
    app: &A,
    root_props: A::Props,
    posts: &List<List<Post>>,
    gate: &G,
    sink: &mut M,
    limits: Limits,
    drains: &mut List<List<Msg>>,
    reports: &mut List<Report>,
) -> Result<Taken, Ended>
    requires some { 1 ≤ length posts.now }
    requires few { length posts.now ≤ 1000 }
    requires short { All (λ list. length list ≤ 1000000) posts.now }
    requires drain { 1 ≤ limits.drain }
    requires empty { (drains.old ≡ []) × (reports.old ≡ []) }
    ensures holds { HoldsAs (A.meaning app.now) limits root_props posts.now
        (M.taken sink.old) (M.faults sink.old) (M.taken sink.new) (M.faults sink.new)
        drains.new reports.new result }
{
    let mut sitting = Sitting::begin(alloc, app, root_props)?;
    let held = hold(rt, alloc, app, posts, gate, &mut sitting, sink, limits);
    let Sitting {
        machine: _,
        calls: _,
        taken: _,
        drains: kept,
        reports: told,
    } = sitting;
    *drains = kept;
    *reports = told;
    held
}
