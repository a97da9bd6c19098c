//! What the worked cases and a million scopes say.

mod cases;
mod steps;

use rt_sched::Queues;
use std::alloc::Global;
use steps::Step;

/// What is tried with new queues.
#[derive(Clone, Copy)]
pub(crate) enum Trial<'a> {
    /// These steps, each with its answer.
    Steps(&'a [Step<'a>]),
    /// A million scopes.
    ManyScopes,
}

/// Whether new queues answer as it is wanted. All trials hold their queues here, since a function
/// that drops queues is dear to prove.
pub(crate) fn holds(alloc: Global, trial: Trial) -> bool {
    let mut queues = Queues::new(alloc);
    answer(alloc, &mut queues, trial)
}

fn answer(alloc: Global, queues: &mut Queues<u64>, trial: Trial) -> bool {
    match trial {
        Trial::Steps(steps) => steps::answer(alloc, queues, steps),
        Trial::ManyScopes => cases::are_marked_and_taken(alloc, queues),
    }
}
