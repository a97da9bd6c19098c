//! What comes next of the queues, and who waits in them. The queues stay as they are.
ghost use Rattle.std.specs.Prelude.{◌≡◌, ◌≢◌, ◌↔◌, [], IsTrue, IfSome, Some};
ghost use Rattle.rt_sched.specs.Lines.{behind, order_in};
ghost use Rattle.rt_sched.specs.Queues.{first_scope, first_task, first_task_of, has_scope, lesser_work, next_work, scope_order};
ghost use Rattle.rt_sched.specs.Due.{NoneEarlier};

use crate::order::ScopeOrder;
use crate::queues::Queues;
use crate::work::Work;
use rt_values::{ScopeId, Task};

impl<E: Drop> Queues<E> {
    /// The order under which a scope is entered, if it is.
    pub fn scope_order(&self, id: ScopeId) -> Option<ScopeOrder>
        ensures order { result ≡ scope_order id.0 self.now.scopes }
    {
        self.scopes.order_of(id.0)
    }

    /// The order under which a task is entered, if it is.
    pub fn task_order(&self, task: Task) -> Option<ScopeOrder>
        ensures order { result ≡ order_in task.0 self.now.tasks }
    {
        self.tasks.order_of(task.0)
    }

    /// The task of a scope that was entered first, if any is entered.
    pub fn first_task_of(&self, id: ScopeId) -> Option<Task>
        ensures first { result ≡ first_task_of id.0 self.now.tasks }
    {
        let order = self.scopes.order_of(id.0)?;
        let number = self.tasks.entered_under(&order)?;
        Some(Task(number))
    }

    /// Whether a scope is seen.
    pub fn is_seen(&self, id: ScopeId) -> bool
        ensures seen { result ≡ has_scope id.0 self.now.seen }
    {
        self.scopes.is_ready(id.0)
    }

    /// The seen scope of the least order.
    pub fn first_seen(&self) -> Option<ScopeOrder>
        ensures first { result ≡ first_scope self.now.seen }
        ensures least { IfSome result (λ order. NoneEarlier order self.now.seen) }
    {
        self.scopes.first_order()
    }

    /// The first queued task of the least order.
    pub fn first_queued(&self) -> Option<Task>
        ensures first { result ≡ first_task self.now.queued }
    {
        let first = self.tasks.first()?;
        Some(Task(first.1))
    }

    /// The first task that is queued behind another one. `None` where that isn't queued.
    pub fn queued_behind(&self, task: Task) -> Option<Task>
        ensures first { result ≡ first_task (behind task.0 self.now.queued) }
    {
        let first = self.tasks.first_behind(task.0)?;
        Some(Task(first.1))
    }

    /// The first of the tasks of which a wake is posted.
    pub fn first_woken(&self) -> Option<Task>
        ensures first { result ≡ first_task self.now.posted_tasks }
    {
        let first = self.tasks.first_posted()?;
        Some(Task(first.1))
    }

    /// The first of these behind another one. `None` where no wake of that is posted.
    pub fn woken_behind(&self, task: Task) -> Option<Task>
        ensures first { result ≡ first_task (behind task.0 self.now.posted_tasks) }
    {
        let first = self.tasks.posted_behind(task.0)?;
        Some(Task(first.1))
    }

    /// Whether a mark is posted.
    pub fn has_marks(&self) -> bool
        ensures posted { IsTrue result ↔ (self.now.posted_scopes ≢ []) }
    {
        !self.scopes.none_posted()
    }

    /// What `pop_work` would take.
    pub fn next_work(&self) -> Option<Work>
        ensures work { result ≡ next_work self.now.seen self.now.queued }
    {
        lesser(self.scopes.first_order(), self.tasks.first())
    }
}

// The lesser of a seen scope and a queued task, the task on equal order.
fn lesser(scope: Option<ScopeOrder>, task: Option<(ScopeOrder, u64)>) -> Option<Work>
    ensures lesser { result ≡ lesser_work scope task }
{
    match (scope, task) {
        (None, None) => None,
        (Some(scope), None) => Some(Work::RerunScope(scope)),
        (None, Some(task)) => Some(Work::PollTask(Task(task.1))),
        (Some(scope), Some(task)) => sooner(scope, task.0, Task(task.1)),
    }
}

// The scope where it comes before the order of the task, and else the task.
fn sooner(scope: ScopeOrder, order: ScopeOrder, task: Task) -> Option<Work>
    ensures sooner { result ≡ lesser_work (Some scope) (Some (order, task.0)) }
{
    if scope.is_before(&order) {
        Some(Work::RerunScope(scope))
    } else {
        Some(Work::PollTask(task))
    }
}
