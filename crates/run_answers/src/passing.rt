//! What a render or a poll of suspended work passes over.
ghost use Rattle.std.specs.Prelude.{◌≡◌, OnOk, Some, option_map};
ghost use Rattle.rt_model.specs.Next.{PollTask, RerunScope, found};
ghost use Rattle.rt_model.specs.Rendering as rendering;
ghost use Rattle.run_state.specs.Mirror.{state_of};
ghost use Rattle.run_state.specs.Names.{task_kind_of, work_of};
ghost use Rattle.run_answers.specs.Barred.{all_passed, barred, barred_task, every_task_passed, left_out, may_take};

use rt_values::OutOfMemory;
use run_state::{State, TaskKind, Work, join};
use std::alloc::Global;
use tree_nodes::Parts;

/// A look, and then all that comes up and that a suspended render may not take goes.
pub fn rendering_rest<P: Parts>(alloc: Global, state: &mut State<P>) -> Result<(), OutOfMemory>
    ensures rests { OnOk result ((g : _) →
        state_of g state.new ≡ rendering.rendering_rest (state_of g state.old)) }
{
    state.look(alloc)?;
    pass_all(state)
}

/// Passes over all that comes up and may not be taken.
fn pass_all<P: Parts>(state: &mut State<P>) -> Result<(), OutOfMemory>
    ensures passed { OnOk result ((g : _) →
        state_of g state.new ≡ all_passed (state_of g state.old)) }
{
    while let Some(work) = barred(state) {
        leave_out(state, work)?;
    }
    Ok(())
}

/// A look, and then the tasks that a poll of suspended work may not poll go, while no scope is
/// seen.
pub fn polling_rest<P: Parts>(alloc: Global, state: &mut State<P>) -> Result<(), OutOfMemory>
    ensures rests { OnOk result ((g : _) →
        state_of g state.new ≡ rendering.polling_rest (state_of g state.old)) }
{
    state.look(alloc)?;
    pass_tasks(state)
}

/// Passes over the tasks that come up and may not be polled, while no scope is seen.
fn pass_tasks<P: Parts>(state: &mut State<P>) -> Result<(), OutOfMemory>
    ensures passed { OnOk result ((g : _) →
        state_of g state.new ≡ every_task_passed (state_of g state.old)) }
{
    while let Some(work) = barred_task(state) {
        leave_out(state, work)?;
    }
    Ok(())
}

/// What comes up, where no scope is seen and it may not be taken.
fn barred_task<P: Parts>(state: &State<P>) -> Option<Work>
    ensures { (g : _) → option_map work_of result ≡ barred_task (state_of g state.now) }
{
    if state.first_seen().is_some() {
        return None;
    }
    barred(state)
}

/// What comes up, where it may not be taken.
fn barred<P: Parts>(state: &State<P>) -> Option<Work>
    ensures { (g : _) → option_map work_of result
        ≡ barred (state_of g state.now) (found (state_of g state.now)) }
{
    match state.found() {
        Some(work) => {
            if may_take(state, work) {
                None
            } else {
                Some(work)
            }
        }
        None => None,
    }
}

/// Whether a suspended render takes this work. Effects are nothing that it passes over.
fn may_take<P: Parts>(state: &State<P>, work: Work) -> bool
    ensures { (g : _) → result ≡ may_take (state_of g state.now) (work_of work) }
{
    match work {
        Work::RerunScope(scope) => may_rerun(state, scope),
        Work::PollTask(task) => may_poll(state, task),
        Work::RunEffects(_) => true,
    }
}

/// Passes over work.
fn leave_out<P: Parts>(state: &mut State<P>, work: Work) -> Result<(), OutOfMemory>
    ensures out { OnOk result ((g : _) →
        state_of g state.new ≡ left_out (state_of g state.old) (work_of work)) }
{
    match work {
        Work::RerunScope(scope) => leave_out_scope(state, scope),
        Work::PollTask(task) => {
            leave_out_task(state, task);
            Ok(())
        }
        Work::RunEffects(_) => Ok(()),
    }
}

/// Passes over a scope, which is listed, once.
fn leave_out_scope<P: Parts>(state: &mut State<P>, scope: u64) -> Result<(), OutOfMemory>
    ensures out { OnOk result ((g : _) →
        state_of g state.new ≡ left_out (state_of g state.old) (RerunScope scope)) }
{
    join(&mut state.skipped, scope)?;
    state.owed.unsee(scope);
    Ok(())
}

/// Passes over a task.
fn leave_out_task<P: Parts>(state: &mut State<P>, task: u64)
    ensures { (g : _) → state_of g state.new ≡ left_out (state_of g state.old) (PollTask task) }
{
    state.owed.unqueue(task);
}

/// Whether a suspended render reruns a scope: it is below a suspense boundary that isn't frozen.
fn may_rerun<P: Parts>(state: &State<P>, scope: u64) -> bool
    ensures { (g : _) → result ≡ rendering.may_rerun (state_of g state.now) scope }
{
    match state.suspense_context(scope) {
        Some(boundary) => is_thawed(state, boundary),
        None => false,
    }
}

/// Whether a boundary isn't frozen.
fn is_thawed<P: Parts>(state: &State<P>, boundary: u64) -> bool
    ensures { (g : _) → result ≡ rendering.is_thawed (state_of g state.now) (Some boundary) }
{
    match state.scope(boundary) {
        Some(found) => !found.rest.frozen,
        None => false,
    }
}

/// Whether a suspended render polls a task: it is active, and not a client's alone.
fn may_poll<P: Parts>(state: &State<P>, task: u64) -> bool
    ensures { (g : _) → result ≡ rendering.may_poll (state_of g state.now) task }
{
    match state.tasks.get(task) {
        Some(row) => row.active && runs_suspended(row.kind),
        None => false,
    }
}

/// Whether a suspended render polls tasks of this kind.
fn runs_suspended(kind: TaskKind) -> bool
    ensures { result ≡ rendering.runs_suspended (task_kind_of kind) }
{
    match kind {
        TaskKind::ClientOnly => false,
        TaskKind::Isomorphic => true,
        TaskKind::Suspended => true,
    }
}
