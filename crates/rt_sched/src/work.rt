//! What is taken from the queues.

use crate::order::ScopeOrder;
use rt_values::Task;

/// One piece of work.
#[derive(Clone, Copy, Debug, PartialEq, Eq)]
pub enum Work {
    /// A scope is seen, and its body is to be run again.
    RerunScope(ScopeOrder),
    /// A task is queued, and is to be polled.
    PollTask(Task),
}
