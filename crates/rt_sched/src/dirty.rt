//! The queued tasks of one scope.
ghost use Rattle.std.specs.Prelude.{◌≡◌, [], OnOk, OnErr};
ghost use Rattle.rt_sched.specs.Dirty.{with_task};

use crate::order::ScopeOrder;
use rt_values::{List, OutOfMemory, Task};
use std::alloc::Global;

/// Tasks of one scope that were woken, each once. Two of these compare by order.
#[derive(Drop)]
#[derive_where(Debug, PartialEq, Eq, PartialOrd, Ord)]
pub struct DirtyTasks {
    pub order: ScopeOrder,
    #[derive_where(skip(EqHashOrd))]
    pub tasks_queued: List<Task>,
}

impl DirtyTasks {
    pub fn new(alloc: Global, order: ScopeOrder) -> DirtyTasks
        ensures order { result.order ≡ order }
        ensures empty { result.tasks_queued ≡ [] }
    {
        DirtyTasks {
            order,
            tasks_queued: List::new(alloc),
        }
    }

    /// Puts a task behind the others. One that is there stays where it is.
    pub fn queue_task(&mut self, task: Task) -> Result<(), OutOfMemory>
        ensures ok { OnOk result (self.new
            ≡ record self.old { tasks_queued = with_task task self.old.tasks_queued }) }
        ensures err { OnErr result (self.new ≡ self.old) }
    {
        if self.tasks_queued.as_slice().contains(&task) {
            return Ok(());
        }
        self.tasks_queued.push(task)
    }
}
