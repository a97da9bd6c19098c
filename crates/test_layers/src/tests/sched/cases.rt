//! The worked cases, and a million scopes.

use super::steps::{Step, is_answered, order};
use super::{Trial, holds};
use rt_sched::{DirtyTasks, Queues};
use rt_values::Task;
use std::alloc::Global;

const NEARER_SCOPES: &[Step] = &[
    Step::EnterScope(2, 5),
    Step::EnterScope(1, 9),
    Step::EnterScope(2, 4),
    Step::Mark(2, 5),
    Step::Mark(1, 9),
    Step::Mark(2, 4),
    Step::GivesRerun(1, 9),
    Step::GivesRerun(2, 4),
    Step::GivesRerun(2, 5),
    Step::GivesNoWork,
];

const TASK_AND_SCOPE: &[Step] = &[
    Step::EnterScope(1, 4),
    Step::EnterTask(1, 1, 4),
    Step::Mark(1, 4),
    Step::Wake(1, 1, 4),
    Step::GivesPoll(1),
    Step::GivesRerun(1, 4),
    Step::GivesNoWork,
];

const NEARER_SCOPE_AND_TASK: &[Step] = &[
    Step::EnterScope(1, 4),
    Step::EnterScope(2, 5),
    Step::EnterTask(1, 2, 5),
    Step::Mark(1, 4),
    Step::Wake(1, 2, 5),
    Step::GivesRerun(1, 4),
    Step::GivesPoll(1),
    Step::GivesNoWork,
];

const TASK_TWICE: &[Step] = &[
    Step::EnterScope(1, 4),
    Step::EnterTask(1, 1, 4),
    Step::Wake(1, 1, 4),
    Step::Wake(1, 1, 4),
    Step::GivesTask(1),
    Step::GivesNoTask,
];

const TASKS_IN_TURN: &[Step] = &[
    Step::EnterScope(1, 4),
    Step::EnterTask(1, 1, 4),
    Step::EnterTask(4, 1, 4),
    Step::Wake(4, 1, 4),
    Step::Wake(1, 1, 4),
    Step::Wake(4, 1, 4),
    Step::GivesTask(4),
    Step::GivesTask(1),
    Step::GivesNoTask,
];

const TASK_ENDS: &[Step] = &[
    Step::EnterScope(3, 3),
    Step::EnterTask(1, 3, 3),
    Step::Wake(1, 3, 3),
    Step::Effect(3, 3, 7),
    Step::ForgetTask(1),
    Step::LacksTask(1, 3, 3),
    Step::GivesNoTask,
    Step::GivesNoWork,
    Step::GivesEffects(3, 3, &[7]),
    Step::IsIdle,
];

const POSTED_MARK: &[Step] = &[
    Step::EnterScope(1, 4),
    Step::PostMark(1, 4),
    Step::GivesNoWork,
    Step::Look,
    Step::GivesRerun(1, 4),
    Step::GivesNoWork,
];

const POSTED_TWICE: &[Step] = &[
    Step::EnterScope(1, 4),
    Step::EnterTask(1, 1, 4),
    Step::PostMark(1, 4),
    Step::PostWake(1, 1, 4),
    Step::PostMark(1, 4),
    Step::PostWake(1, 1, 4),
    Step::GivesNoWork,
    Step::Look,
    Step::GivesPoll(1),
    Step::GivesRerun(1, 4),
    Step::GivesNoWork,
    Step::IsIdle,
];

const SCOPE_GOES: &[Step] = &[
    Step::EnterScope(1, 4),
    Step::EnterTask(4, 1, 4),
    Step::Wake(4, 1, 4),
    Step::PostWake(4, 1, 4),
    Step::Mark(1, 4),
    Step::PostMark(1, 4),
    Step::Effect(1, 4, 4),
    Step::EnterScope(1, 5),
    Step::EnterTask(5, 1, 5),
    Step::Wake(5, 1, 5),
    Step::PostWake(5, 1, 5),
    Step::Mark(1, 5),
    Step::PostMark(1, 5),
    Step::Effect(1, 5, 5),
    Step::ForgetScope(4),
    Step::LacksScope(1, 4),
    Step::LacksTask(4, 1, 4),
    Step::Look,
    Step::GivesPoll(5),
    Step::GivesRerun(1, 5),
    Step::GivesNoWork,
    Step::GivesEffects(1, 5, &[5]),
    Step::IsIdle,
];

const STARTED: &[Step] = &[
    Step::EnterScope(1, 4),
    Step::EnterTask(1, 1, 4),
    Step::Mark(1, 4),
    Step::PostMark(1, 4),
    Step::Wake(1, 1, 4),
    Step::PostWake(1, 1, 4),
    Step::StartScope(4),
    Step::StartTask(1),
    Step::Look,
    Step::GivesNoWork,
    Step::IsIdle,
];

const EFFECTS: &[Step] = &[
    Step::Effect(1, 9, 1),
    Step::Effect(1, 2, 2),
    Step::Effect(1, 9, 3),
    Step::GivesEffects(1, 2, &[2]),
    Step::GivesEffects(1, 9, &[1, 3]),
    Step::IsIdle,
];

/// What new queues answer.
const CASES: [&[Step]; 11] = [
    STARTED,
    NEARER_SCOPES,
    TASK_AND_SCOPE,
    NEARER_SCOPE_AND_TASK,
    TASK_TWICE,
    TASKS_IN_TURN,
    TASK_ENDS,
    POSTED_MARK,
    POSTED_TWICE,
    SCOPE_GOES,
    EFFECTS,
];

#[test]
fn calls_of_queues_are_answered(rt: HostRuntime) {
    for (place, steps) in CASES.iter().enumerate() {
        assert!(rt; holds(rt.alloc(), Trial::Steps(*steps)), "case {place}");
    }
}

// A task that is queued twice stands there once, and the scope comes behind one that is nearer.
fn has_a_task_once(mut tasks: DirtyTasks, nearer: &DirtyTasks) -> bool {
    let are_queued = tasks.queue_task(Task(1)).is_ok() & tasks.queue_task(Task(1)).is_ok();
    are_queued & (tasks.tasks_queued.len() == 1) & (*nearer < tasks)
}

#[test]
fn a_dirty_scope_has_a_task_once(rt: HostRuntime) {
    let tasks = DirtyTasks::new(rt.alloc(), order(2, 5));
    let nearer = DirtyTasks::new(rt.alloc(), order(1, 9));
    assert!(rt; has_a_task_once(tasks, &nearer));
}

/// How many scopes are entered.
const SCOPES: u64 = 1_000_000;

// A scope is marked, and is all that is to be done.
fn is_marked_and_run(alloc: Global, queues: &mut Queues<u64>, number: u64) -> bool {
    is_answered(alloc, queues, Step::Mark(1, number))
        & is_answered(alloc, queues, Step::GivesRerun(1, number))
}

// Scopes from 1 on are entered.
fn are_entered(alloc: Global, queues: &mut Queues<u64>) -> bool {
    let mut is_well = true;
    for number in 1..=SCOPES {
        is_well = is_well & is_answered(alloc, queues, Step::EnterScope(1, number));
    }
    is_well
}

// Every seventh scope is marked and run, round and round.
fn are_marked_and_run(alloc: Global, queues: &mut Queues<u64>) -> bool {
    let mut is_well = true;
    for step in 0..SCOPES {
        is_well = is_well & is_marked_and_run(alloc, queues, (7 * step) % SCOPES + 1);
    }
    is_well
}

/// A queue that goes through all that it holds at each call doesn't come to an end here.
pub(crate) fn are_marked_and_taken(alloc: Global, queues: &mut Queues<u64>) -> bool {
    are_entered(alloc, queues) & are_marked_and_run(alloc, queues) & queues.pop_work().is_none()
}

#[test]
fn a_million_scopes_are_marked_and_taken(rt: HostRuntime) {
    assert!(rt; holds(rt.alloc(), Trial::ManyScopes));
}
