//! Where the task of a memo or of a resource stands between two polls.

use rt_cells::ReactiveContext;

/// What a resource has at a step of loading.
#[derive(Drop)]
pub enum Load<V> {
    /// Nothing yet: the next poll takes the next step.
    Wait,
    /// What is loaded for the key.
    Done(V),
}

/// Where the task of a memo or of a resource stands between two polls.
#[derive(Drop)]
pub enum MemoTask<V, F> {
    /// It wasn't polled yet.
    Fresh {
        /// The number of the cell that it keeps.
        cell: u64,
        formula: F,
        /// Whether it is a resource.
        loads: bool,
    },
    /// A memo.
    Memo {
        cell: u64,
        /// The context that its formula is computed in, which wakes the task.
        context: ReactiveContext,
        formula: F,
    },
    /// A resource.
    Resource {
        cell: u64,
        /// The context that its key is computed in, which wakes the task.
        context: ReactiveContext,
        formula: F,
        /// What it loads for, or has loaded for.
        key: V,
        /// The step that the next poll loads at, from 0.
        step: u64,
        /// Whether its cell has what was loaded for the key.
        done: bool,
    },
}
