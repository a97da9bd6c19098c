//! The entry that begins a unit, and its first step.
ghost use Rattle.std.specs.Prelude.{◌≡◌, false, OnOk};
ghost use Rattle.rt_model.specs.Replay.{effects_run, polled};
ghost use Rattle.rt_model.specs.Reports.{is_opening};
ghost use Rattle.run_reports.specs.Seen.{entry_of};
ghost use Rattle.rt_scopes.specs.Outcomes.{Comes, StateComes, no_work};
ghost use Rattle.run_state.specs.Names.{work_of as model_work};
ghost use Rattle.law_moves.specs.Turn.{entry_for, unit_of};
ghost use Rattle.run_work.specs.Items.{work_of};
ghost use Rattle.run_turns.specs.Counting.{CountsChange};

use author_calls::{App, Calls};
use rt_sched::{Effect, ScopeOrder};
use rt_scopes::Scopes;
use rt_values::{List, ScopeId, Task};
use run_reports::Entry;
use run_state::{Stop, Work};
use run_work::Item;

/// The entry that begins a unit.
pub fn entry_for(work: Work) -> Entry
    ensures entry { entry_of result ≡ entry_for (model_work work) }
    ensures later { is_opening (entry_of result) ≡ false }
{
    match work {
        Work::RerunScope(scope) => Entry::Rerun(ScopeId(scope)),
        Work::PollTask(task) => Entry::Poll(Task(task)),
        Work::RunEffects(scope) => Entry::Effects(ScopeId(scope)),
    }
}

/// What a unit does first. The work that it leads to.
pub fn first_step<A: App>(
    scopes: &mut Scopes<A>,
    app: &A,
    calls: &mut Calls,
    work: Work,
) -> Result<List<Item<A>>, Stop>
    ensures done { StateComes (λ w. unit_of (A.meaning app.now) w (model_work work))
        scopes.old.state scopes.new.state work_of result }
    ensures counted { OnOk result (CountsChange
        (λ w. unit_of (A.meaning app.now) w (model_work work))
        scopes.old.state calls.old calls.new) }
{
    match work {
        Work::RerunScope(scope) => scopes.run(app, calls, ScopeId(scope)),
        Work::PollTask(task) => {
            poll_and_look(scopes, app, calls, Task(task))?;
            Ok(List::new(scopes.alloc))
        }
        Work::RunEffects(scope) => {
            effects_and_look(scopes, app, calls, ScopeId(scope))?;
            Ok(List::new(scopes.alloc))
        }
    }
}

/// Polls a task. A look follows, where it is live.
fn poll_and_look<A: App>(
    scopes: &mut Scopes<A>,
    app: &A,
    calls: &mut Calls,
    task: Task,
) -> Result<(), Stop>
    ensures polled { Comes (λ w. polled (A.meaning app.now) w task.0)
        scopes.old.state calls.old scopes.new.state calls.new no_work result }
{
    if !scopes.state.has_task(task.0) {
        scopes.state.unqueue(task.0);
        return Ok(());
    }
    let _polled = scopes.poll_task(app, calls, task)?;
    scopes.state.look(scopes.alloc)?;
    Ok(())
}

/// Does the effects that a scope has queued, as one batch. A look follows.
fn effects_and_look<A: App>(
    scopes: &mut Scopes<A>,
    app: &A,
    calls: &mut Calls,
    scope: ScopeId,
) -> Result<(), Stop>
    ensures run { Comes (λ w. effects_run (A.meaning app.now) w scope.0)
        scopes.old.state calls.old scopes.new.state calls.new no_work result }
{
    let order = order_of(scopes, scope);
    let effects = scopes.state.take_effects(scopes.alloc, scope.0)?;
    scopes.call_effects(app, calls, Effect { order, effects })?;
    scopes.state.look(scopes.alloc)?;
    Ok(())
}

/// The order of a scope, by its height.
fn order_of<A: App>(scopes: &Scopes<A>, scope: ScopeId) -> ScopeOrder
    ensures scope { result.id ≡ scope }
{
    match scopes.state.scope(scope.0) {
        Some(found) => ScopeOrder::new(found.rest.height, scope),
        None => ScopeOrder::new(0, scope),
    }
}
