//! The queues. Room for all that a scope or a task may ask for is taken when it is entered.
ghost use Rattle.std.specs.Prelude.{◌≡◌, ◌≢◌, ◌∷◌, [], ◌↔◌, drop, IsTrue, MatchOption, IfSome, IsNone, IsOk, OnOk, OnErr};
ghost use Rattle.rt_sched.specs.Lines.{with_waiting, without_waiting};
ghost use Rattle.rt_sched.specs.Rosters.{stands_under};
ghost use Rattle.rt_sched.specs.Batches.{with_effect, without_batch, batch_orders};
ghost use Rattle.rt_sched.specs.Queues.{has_order, with_scope, without_scope, without_tasks_of, looked, next_work, seen_after, queued_after, scope_first, first_task};
ghost use Rattle.rt_sched.specs.Due.{IsDue, IsFirstTask, NoneEarlier, Takes};
ghost use Rattle.rt_sched.specs.Kept.{AreKept};

use crate::effects::{Effect, Effects};
use crate::order::ScopeOrder;
use crate::roll::Roll;
use crate::work::Work;
use rt_values::{OutOfMemory, ScopeId, Task};
use std::alloc::Global;
use std::marker::Model;

/// Marks, wakes and effects that wait for their turn.
#[derive(Drop)]
pub struct Queues<E> {
    pub(crate) scopes: Roll,
    pub(crate) tasks: Roll,
    pub(crate) effects: Effects<E>,
}

impl<E> Model for Queues<E> {
    ghost use Rattle.rt_sched.specs.Queues.{Waiting};

    ghost Value = { Waiting E };

    ghost use Rattle.rt_sched.specs.Kept.{AreKept};
    ghost use Rattle.rt_sched.specs.Lines.{orders_of};

    ghost view = { λ queues. record {
      scopes = orders_of queues.scopes.entered;
      tasks = queues.tasks.entered;
      seen = orders_of queues.scopes.ready;
      queued = queues.tasks.ready;
      posted_scopes = orders_of queues.scopes.posted;
      posted_tasks = queues.tasks.posted;
      effects = queues.effects;
    } };

    ghost invariant = { λ queues. AreKept queues.scopes queues.tasks };
}

impl<E: Drop> Queues<E> {
    pub fn new(alloc: Global) -> Queues<E>
        ensures empty { result ≡ record {
          scopes = [];
          tasks = [];
          seen = [];
          queued = [];
          posted_scopes = [];
          posted_tasks = [];
          effects = [];
        } }
    {
        Queues {
            scopes: Roll::new(alloc),
            tasks: Roll::new(alloc),
            effects: Effects::new(alloc),
        }
    }

    /// Enters a scope, which takes the room that its marks will need. A scope that is entered stays as
    /// it is.
    pub fn enter_scope(&mut self, alloc: Global, order: ScopeOrder) -> Result<(), OutOfMemory>
        ensures ok { OnOk result (self.new
            ≡ record self.old { scopes = with_scope order self.old.scopes }) }
        ensures err { OnErr result (self.new ≡ self.old) }
    {
        self.scopes.enter(alloc, order.id().0, order)?;
        Ok(())
    }

    /// Enters a task of an entered scope, which takes the room that its wakes will need. A task that is
    /// entered stays as it is.
    pub fn enter_task(
        &mut self,
        alloc: Global,
        task: Task,
        order: ScopeOrder,
    ) -> Result<(), OutOfMemory>
        requires entered { IsTrue (has_order order self.old.scopes) }
        ensures ok { OnOk result (self.new
            ≡ record self.old { tasks = with_waiting order task.0 self.old.tasks }) }
        ensures err { OnErr result (self.new ≡ self.old) }
    {
        self.tasks.enter(alloc, task.0, order)?;
        Ok(())
    }

    /// Whether a scope is entered under this order.
    pub fn has_scope(&self, order: ScopeOrder) -> bool
        ensures entered { result ≡ has_order order self.now.scopes }
    {
        self.scopes.has(order.id().0, &order)
    }

    /// Whether a task is entered under this order.
    pub fn has_task(&self, task: Task, order: ScopeOrder) -> bool
        ensures entered { result ≡ stands_under task.0 order self.now.tasks }
    {
        self.tasks.has(task.0, &order)
    }

    /// Makes an entered scope seen.
    pub fn queue_scope(&mut self, order: ScopeOrder) -> Result<(), OutOfMemory>
        requires entered { IsTrue (has_order order self.old.scopes) }
        ensures ok { IsOk result }
        ensures seen { self.new ≡ record self.old { seen = with_scope order self.old.seen } }
    {
        self.scopes.push(order.id().0, order);
        Ok(())
    }

    /// Posts a mark of an entered scope, which the next look makes seen.
    pub fn post_scope(&mut self, order: ScopeOrder) -> Result<(), OutOfMemory>
        requires entered { IsTrue (has_order order self.old.scopes) }
        ensures ok { IsOk result }
        ensures posted { self.new
            ≡ record self.old { posted_scopes = with_scope order self.old.posted_scopes } }
    {
        self.scopes.post(order.id().0, order);
        Ok(())
    }

    /// Queues a task that is entered under this order, the last of it. One that is queued stays where
    /// it is.
    pub fn queue_task(&mut self, task: Task, order: ScopeOrder) -> Result<(), OutOfMemory>
        requires entered { IsTrue (stands_under task.0 order self.old.tasks) }
        ensures ok { IsOk result }
        ensures queued { self.new
            ≡ record self.old { queued = with_waiting order task.0 self.old.queued } }
    {
        self.tasks.push(task.0, order);
        Ok(())
    }

    /// Posts a wake of a task that is entered under this order, which the next look queues.
    pub fn post_task(&mut self, task: Task, order: ScopeOrder) -> Result<(), OutOfMemory>
        requires entered { IsTrue (stands_under task.0 order self.old.tasks) }
        ensures ok { IsOk result }
        ensures posted { self.new
            ≡ record self.old { posted_tasks = with_waiting order task.0 self.old.posted_tasks } }
    {
        self.tasks.post(task.0, order);
        Ok(())
    }

    /// Queues an effect, the last in the batch of its scope.
    pub fn queue_effect(
        &mut self,
        alloc: Global,
        order: ScopeOrder,
        effect: E,
    ) -> Result<(), OutOfMemory>
        ensures ok { OnOk result (self.new
            ≡ record self.old { effects = with_effect order effect self.old.effects }) }
        ensures err { OnErr result (self.new ≡ self.old) }
    {
        self.effects.push(alloc, order, effect)
    }

    /// Makes all that is posted seen or queued.
    pub fn look(&mut self) -> Result<(), OutOfMemory>
        ensures ok { IsOk result }
        ensures looked { self.new ≡ looked self.old }
    {
        self.scopes.look();
        self.tasks.look();
        Ok(())
    }

    /// Takes out the first queued task of the least order.
    pub fn pop_task(&mut self) -> Option<Task>
        ensures first { result ≡ first_task self.old.queued }
        ensures least { IfSome result
            (λ task. (order : _) × IsFirstTask self.old.queued order task) }
        ensures none { IsNone result ↔ (self.old.queued ≡ []) }
        ensures others { self.new ≡ record self.old { queued = drop 1 self.old.queued } }
    {
        let (_, number) = self.tasks.pop_first()?;
        Some(Task(number))
    }

    /// Takes out the batch of the least order.
    pub fn pop_effect(&mut self) -> Option<Effect<E>>
        ensures first { MatchOption result (self.old.effects ≡ [])
            (λ batch. self.old.effects ≡ (batch.order, batch.effects) ∷ self.new.effects) }
        ensures least { IfSome result
            (λ batch. NoneEarlier batch.order (batch_orders self.old.effects)) }
        ensures others { self.new ≡ record self.old { effects = drop 1 self.old.effects } }
    {
        self.effects.pop_first()
    }

    /// Takes out the lesser of the first seen scope and the first queued task, the task on equal
    /// order.
    pub fn pop_work(&mut self) -> Option<Work>
        ensures work { result ≡ next_work self.old.seen self.old.queued }
        ensures least { IfSome result (IsDue self.old.seen self.old.queued) }
        ensures none { IsNone result ↔ ((self.old.seen ≡ []) × (self.old.queued ≡ [])) }
        ensures taken { MatchOption result (self.new ≡ self.old) (Takes self.old self.new) }
        ensures others { self.new ≡ record self.old {
          seen = seen_after self.old.seen self.old.queued;
          queued = queued_after self.old.seen self.old.queued;
        } }
    {
        if scope_goes_first(self.scopes.first_order(), self.tasks.first_order()) {
            let (order, _) = self.scopes.pop_first()?;
            Some(Work::RerunScope(order))
        } else {
            let (_, number) = self.tasks.pop_first()?;
            Some(Work::PollTask(Task(number)))
        }
    }

    /// A scope is seen no more, as where it is passed over. What is posted of it stays.
    pub fn unsee_scope(&mut self, id: ScopeId)
        ensures unseen { self.new
            ≡ record self.old { seen = without_scope id.0 self.old.seen } }
    {
        self.scopes.withdraw(id.0);
    }

    /// A task is queued no more, as where it is passed over. What is posted of it stays.
    pub fn unqueue_task(&mut self, task: Task)
        ensures unqueued { self.new
            ≡ record self.old { queued = without_waiting task.0 self.old.queued } }
    {
        self.tasks.withdraw(task.0);
    }

    /// Drops the marks of a scope, as its run begins.
    pub fn start_scope(&mut self, id: ScopeId)
        ensures started { self.new ≡ record self.old {
          seen = without_scope id.0 self.old.seen;
          posted_scopes = without_scope id.0 self.old.posted_scopes;
        } }
    {
        self.scopes.start(id.0);
    }

    /// Drops all that waits for a scope: its marks, the entries of its tasks and its effects. The scope
    /// and its tasks are no longer entered.
    pub fn forget_scope(&mut self, id: ScopeId)
        ensures forgotten { self.new ≡ record {
          scopes = without_scope id.0 self.old.scopes;
          tasks = without_tasks_of id.0 self.old.tasks;
          seen = without_scope id.0 self.old.seen;
          queued = without_tasks_of id.0 self.old.queued;
          posted_scopes = without_scope id.0 self.old.posted_scopes;
          posted_tasks = without_tasks_of id.0 self.old.posted_tasks;
          effects = without_batch id.0 self.old.effects;
        } }
    {
        forget_tasks_of(id.0, &self.scopes, &mut self.tasks);
        self.scopes.forget(id.0);
        self.effects.forget(id.0);
    }

    /// Drops what is queued and posted of a task, as its poll begins.
    pub fn start_task(&mut self, task: Task)
        ensures started { self.new ≡ record self.old {
          queued = without_waiting task.0 self.old.queued;
          posted_tasks = without_waiting task.0 self.old.posted_tasks;
        } }
    {
        self.tasks.start(task.0);
    }

    /// Drops what is queued and posted of a task that has ended. It is no longer entered.
    pub fn forget_task(&mut self, task: Task)
        ensures forgotten { self.new ≡ record self.old {
          tasks = without_waiting task.0 self.old.tasks;
          queued = without_waiting task.0 self.old.queued;
          posted_tasks = without_waiting task.0 self.old.posted_tasks;
        } }
    {
        self.tasks.forget(task.0);
    }

    /// Whether a scope is seen.
    pub fn has_dirty_scopes(&self) -> bool
        ensures seen { IsTrue result ↔ (self.now.seen ≢ []) }
    {
        !self.scopes.none_ready()
    }

    /// Whether nothing is seen, queued or posted, effects included.
    pub fn idle(&self) -> bool
        ensures nothing { IsTrue result
            ↔ ((self.now.seen ≡ []) × (self.now.queued ≡ []) × (self.now.posted_scopes ≡ [])
            × (self.now.posted_tasks ≡ []) × (self.now.effects ≡ [])) }
    {
        self.scopes.is_quiet() && self.tasks.is_quiet() && self.effects.is_empty()
    }
}

// Takes all tasks of a scope off the tasks' roll.
fn forget_tasks_of(number: u64, scopes: &Roll, tasks: &mut Roll)
    requires kept { AreKept scopes.now tasks.old }
    ensures forgotten { tasks.new ≡ record {
      entered = without_tasks_of number tasks.old.entered;
      ready = without_tasks_of number tasks.old.ready;
      posted = without_tasks_of number tasks.old.posted;
    } }
{
    if let Some(order) = scopes.order_of(number) {
        tasks.forget_under(&order);
    }
}

// Whether the first seen scope comes before the first queued task.
fn scope_goes_first(scope: Option<ScopeOrder>, task: Option<ScopeOrder>) -> bool
    ensures first { result ≡ scope_first scope task }
{
    match (scope, task) {
        (None, _) => false,
        (Some(_), None) => true,
        (Some(scope), Some(task)) => scope.is_before(&task),
    }
}
