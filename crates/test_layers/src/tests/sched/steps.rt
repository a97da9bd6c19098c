//! Calls of the queues as data, each with the answer that is wanted of it.

use rt_sched::{Queues, ScopeOrder, Work};
use rt_values::{ScopeId, Task};
use std::alloc::Global;

/// One call. A scope is named by its height and its number, which stand behind a task's number.
#[derive(Clone, Copy)]
pub(crate) enum Step<'a> {
    EnterScope(u32, u64),
    EnterTask(u64, u32, u64),
    Mark(u32, u64),
    PostMark(u32, u64),
    Wake(u64, u32, u64),
    PostWake(u64, u32, u64),
    /// An effect of a scope, by a number of its own.
    Effect(u32, u64, u64),
    Look,
    StartScope(u64),
    StartTask(u64),
    ForgetScope(u64),
    ForgetTask(u64),
    /// The next work is to run this scope again.
    GivesRerun(u32, u64),
    /// The next work is to poll this task.
    GivesPoll(u64),
    GivesNoWork,
    /// This is the next queued task.
    GivesTask(u64),
    GivesNoTask,
    /// The first batch is of this scope, and has these effects.
    GivesEffects(u32, u64, &'a [u64]),
    LacksScope(u32, u64),
    LacksTask(u64, u32, u64),
    IsIdle,
}

pub(crate) fn order(height: u32, number: u64) -> ScopeOrder {
    ScopeOrder::new(height, ScopeId(number))
}

/// Whether the queues answer each of these steps as it wants.
pub(crate) fn answer(alloc: Global, queues: &mut Queues<u64>, steps: &[Step]) -> bool {
    let mut is_well = true;
    for step in steps {
        is_well = is_well & is_answered(alloc, queues, *step);
    }
    is_well
}

/// Makes a call, and says whether it was answered as the step wants, and not refused.
pub(crate) fn is_answered(alloc: Global, queues: &mut Queues<u64>, step: Step) -> bool {
    match step {
        Step::EnterScope(height, number) => {
            queues.enter_scope(alloc, order(height, number)).is_ok()
        }
        Step::EnterTask(task, height, number) => {
            enters_task(alloc, queues, Task(task), order(height, number))
        }
        Step::Mark(height, number) => is_marked(queues, order(height, number)),
        Step::PostMark(height, number) => is_mark_posted(queues, order(height, number)),
        Step::Wake(task, height, number) => is_woken(queues, Task(task), order(height, number)),
        Step::PostWake(task, height, number) => {
            is_wake_posted(queues, Task(task), order(height, number))
        }
        Step::Effect(height, number, effect) => queues
            .queue_effect(alloc, order(height, number), effect)
            .is_ok(),
        Step::Look => queues.look().is_ok(),
        Step::StartScope(_) | Step::StartTask(_) | Step::ForgetScope(_) | Step::ForgetTask(_) => {
            start_or_end(queues, step);
            true
        }
        _ => is_given(queues, step),
    }
}

fn start_or_end(queues: &mut Queues<u64>, step: Step) {
    match step {
        Step::StartScope(number) => queues.start_scope(ScopeId(number)),
        Step::StartTask(task) => queues.start_task(Task(task)),
        Step::ForgetScope(number) => queues.forget_scope(ScopeId(number)),
        Step::ForgetTask(task) => queues.forget_task(Task(task)),
        _ => (),
    }
}

fn enters_task(alloc: Global, queues: &mut Queues<u64>, task: Task, scope: ScopeOrder) -> bool {
    queues.has_scope(scope) && queues.enter_task(alloc, task, scope).is_ok()
}

fn is_marked(queues: &mut Queues<u64>, scope: ScopeOrder) -> bool {
    queues.has_scope(scope) && queues.queue_scope(scope).is_ok()
}

fn is_mark_posted(queues: &mut Queues<u64>, scope: ScopeOrder) -> bool {
    queues.has_scope(scope) && queues.post_scope(scope).is_ok()
}

fn is_woken(queues: &mut Queues<u64>, task: Task, scope: ScopeOrder) -> bool {
    queues.has_task(task, scope) && queues.queue_task(task, scope).is_ok()
}

fn is_wake_posted(queues: &mut Queues<u64>, task: Task, scope: ScopeOrder) -> bool {
    queues.has_task(task, scope) && queues.post_task(task, scope).is_ok()
}

// Whether the queues give what a step wants of them.
fn is_given(queues: &mut Queues<u64>, step: Step) -> bool {
    match step {
        Step::GivesRerun(height, number) => {
            queues.pop_work() == Some(Work::RerunScope(order(height, number)))
        }
        Step::GivesPoll(task) => queues.pop_work() == Some(Work::PollTask(Task(task))),
        Step::GivesNoWork => queues.pop_work().is_none(),
        Step::GivesTask(task) => queues.pop_task() == Some(Task(task)),
        Step::GivesNoTask => queues.pop_task().is_none(),
        Step::GivesEffects(height, number, want) => {
            is_batch_given(queues, order(height, number), want)
        }
        Step::LacksScope(height, number) => !queues.has_scope(order(height, number)),
        Step::LacksTask(task, height, number) => {
            !queues.has_task(Task(task), order(height, number))
        }
        _ => queues.idle() & !queues.has_dirty_scopes(),
    }
}

fn is_batch_given(queues: &mut Queues<u64>, scope: ScopeOrder, want: &[u64]) -> bool {
    match queues.pop_effect() {
        Some(batch) => (batch.order == scope) & (batch.effects.as_slice() == want),
        None => false,
    }
}
