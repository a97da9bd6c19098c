//! Marks and wakes that are posted, scopes that were seen, and tasks that are queued.
ghost use Rattle.std.specs.Prelude.{◌≡◌, ◌↔◌, ◌≢◌, ◌++◌, ◌∷◌, [], IsTrue, OnOk, OnErr, true, false, None, map};
ghost use Rattle.rt_model.specs.Lists.{has, drop_number, join, without};
ghost use Rattle.rt_model.specs.Next.{least, sorted_by};
ghost use Rattle.rt_model.specs.State.{Mark, Woken};
ghost use Rattle.rt_model.specs.Commands.{drop_posted};
ghost use Rattle.run_owed.specs.Lists.{EachOnce, first_with, marks_in, numbers_of};
ghost use Rattle.run_owed.specs.Orders.{first_number, scope_rank, sooner, task_rank};
ghost use Rattle.run_owed.specs.Owing.{living, looked, nothing};
ghost use Rattle.run_owed.specs.Stands.{behind_number, entered_order, least_queued, least_seen, owner_order, queued_in_turn, queued_line, seen_orders, under, woken_in_turn};
ghost use Rattle.rt_sched.specs.Queues.{lesser_work, next_work};

use crate::numbered::entry_for;
use crate::told::{Event, Told};
use rt_sched::{Queues, Work};
use rt_values::{OutOfMemory, ScopeId, Task};
use std::alloc::Global;
use std::marker::Model;

/// Which scopes and tasks are entered, and what is owed of them. Entering one takes the room for all of
/// it. A clause sees what is posted in the order in which it was posted, a thing as often as it was,
/// and what is seen and queued in the order of joining. The queues keep each of these by its order.
#[derive(Drop)]
pub struct Owed {
    alloc: Global,
    queues: Queues<()>,
    told: Told,
    /// Above the numbers of all scopes that were ever entered.
    next: u64,
}

impl Model for Owed {
    ghost use Rattle.run_owed.specs.Changes.{owing_by};
    ghost use Rattle.run_owed.specs.Owing.{Owing};
    ghost use Rattle.run_owed.specs.Stands.{StandsFor};

    ghost Value = { Owing };

    ghost view = { λ owed. owing_by owed.told };

    ghost invariant = { λ owed. StandsFor (owing_by owed.told) owed.queues owed.next };
}

impl Owed {
    /// Nothing is entered, and nothing is owed.
    pub fn new(alloc: Global) -> Owed
        ensures empty { result ≡ nothing }
    {
        Owed {
            alloc,
            queues: Queues::new(alloc),
            told: Told::new(),
            next: 0,
        }
    }

    /// A scope is entered after the others, with its height. A number that isn't past all that were
    /// entered, or a height past the scheduler's, is answered as want of memory.
    pub fn enter_scope(&mut self, scope: u64, height: u64) -> Result<(), OutOfMemory>
        ensures ok { OnOk result (self.new
            ≡ record self.old { scopes = self.old.scopes ++ (scope, height) ∷ [] }) }
        ensures err { OnErr result (self.new ≡ self.old) }
    {
        let Some(entry) = entry_for(self.next, scope, height) else {
            return Err(OutOfMemory);
        };
        self.queues.enter_scope(self.alloc, entry.0)?;
        self.told.tell(Event::EnteredScope(scope, height));
        self.next = entry.1;
        Ok(())
    }

    /// A task of an entered scope is entered after the others. One that is entered is answered as want of
    /// memory.
    pub fn enter_task(&mut self, task: u64, scope: u64) -> Result<(), OutOfMemory>
        requires entered { has (numbers_of self.old.scopes) scope ≡ true }
        ensures ok { OnOk result (self.new
            ≡ record self.old { tasks = self.old.tasks ++ (task, scope) ∷ [] }) }
        ensures err { OnErr result (self.new ≡ self.old) }
    {
        if self.queues.task_order(Task(task)).is_some() {
            return Err(OutOfMemory);
        }
        let Some(order) = self.queues.scope_order(ScopeId(scope)) else {
            return Err(OutOfMemory);
        };
        self.queues.enter_task(self.alloc, Task(task), order)?;
        self.told.tell(Event::EnteredTask(task, scope));
        Ok(())
    }

    /// An entered scope that isn't seen, and whose tasks have ended, is entered no more. What is posted
    /// of it stays, to be passed over.
    pub fn leave_scope(&mut self, scope: u64)
        requires entered { has (numbers_of self.old.scopes) scope ≡ true }
        requires unseen { has self.old.seen scope ≡ false }
        requires no_tasks { first_with scope self.old.tasks ≡ None }
        ensures scopes { self.new ≡ record self.old { scopes = without self.old.scopes scope } }
    {
        self.queues.forget_scope(ScopeId(scope));
        self.told.tell(Event::LeftScope(scope));
    }

    /// A task is entered no more, and what is owed of it goes.
    pub fn end_task(&mut self, task: u64)
        ensures ended { self.new ≡ record self.old {
          posted = drop_posted self.old.posted (Woken task);
          queued = drop_number self.old.queued task;
          tasks = without self.old.tasks task;
        } }
    {
        self.queues.forget_task(Task(task));
        self.told.tell(Event::EndedTask(task));
    }

    /// No two entered tasks have one number.
    #[inline(always)]
    pub fn tasks_apart(&self)
        ensures apart { EachOnce (numbers_of self.now.tasks) }
    {
        let _queues = &self.queues;
    }

    /// The task of a scope that was entered first.
    pub fn first_task(&self, scope: u64) -> Option<u64>
        ensures first { result ≡ first_with scope self.now.tasks }
    {
        let task = self.queues.first_task_of(ScopeId(scope))?;
        Some(task.0)
    }

    /// Posts a mark of an entered scope. It takes no memory.
    pub fn post_mark(&mut self, scope: u64)
        requires entered { has (numbers_of self.old.scopes) scope ≡ true }
        ensures posted { self.new ≡ record self.old { posted = self.old.posted ++ Mark scope ∷ [] } }
    {
        if let Some(order) = self.queues.scope_order(ScopeId(scope)) {
            let _done = self.queues.post_scope(order);
            self.told.tell(Event::Marked(scope));
        }
    }

    /// Posts a wake of an entered task. It takes no memory.
    pub fn post_wake(&mut self, task: u64)
        requires entered { has (numbers_of self.old.tasks) task ≡ true }
        ensures posted { self.new ≡ record self.old { posted = self.old.posted ++ Woken task ∷ [] } }
    {
        if let Some(order) = self.queues.task_order(Task(task)) {
            let _done = self.queues.post_task(Task(task), order);
            self.told.tell(Event::Woken(task));
        }
    }

    /// An entered scope is seen, once. It takes no memory.
    pub fn see(&mut self, scope: u64)
        requires entered { has (numbers_of self.old.scopes) scope ≡ true }
        ensures seen { self.new ≡ record self.old { seen = join self.old.seen scope } }
    {
        if let Some(order) = self.queues.scope_order(ScopeId(scope)) {
            let _done = self.queues.queue_scope(order);
            self.told.tell(Event::Seen(scope));
        }
    }

    /// All that is posted becomes seen or queued, once each. It takes no memory.
    pub fn look(&mut self)
        ensures looked { self.new ≡ looked self.old }
    {
        let _done = self.queues.look();
        self.told.tell(Event::Looked);
    }

    /// A scope's marks go, posted or seen.
    pub fn unmark(&mut self, scope: u64)
        ensures unmarked { self.new ≡ record self.old {
          posted = drop_posted self.old.posted (Mark scope);
          seen = drop_number self.old.seen scope;
        } }
    {
        self.queues.start_scope(ScopeId(scope));
        self.told.tell(Event::Unmarked(scope));
    }

    /// A task's wakes go, posted or queued.
    pub fn unwake(&mut self, task: u64)
        ensures unqueued { self.new ≡ record self.old {
          posted = drop_posted self.old.posted (Woken task);
          queued = drop_number self.old.queued task;
        } }
    {
        self.queues.start_task(Task(task));
        self.told.tell(Event::Unwoken(task));
    }

    /// A scope is seen no more. What is posted of it stays.
    pub fn unsee(&mut self, scope: u64)
        ensures seen { self.new ≡ record self.old { seen = drop_number self.old.seen scope } }
    {
        self.queues.unsee_scope(ScopeId(scope));
        self.told.tell(Event::Unseen(scope));
    }

    /// A task is queued no more. What is posted of it stays.
    pub fn unqueue(&mut self, task: u64)
        ensures queued { self.new ≡ record self.old { queued = drop_number self.old.queued task } }
    {
        self.queues.unqueue_task(Task(task));
        self.told.tell(Event::Unqueued(task));
    }

    /// Whether no scope is seen.
    pub fn sees_none(&self) -> bool
        ensures empty { IsTrue result ↔ (self.now.seen ≡ []) }
    {
        !self.queues.has_dirty_scopes()
    }

    /// Whether a scope is seen.
    pub fn sees(&self, scope: u64) -> bool
        ensures seen { result ≡ has self.now.seen scope }
    {
        self.queues.is_seen(ScopeId(scope))
    }

    /// The seen scope of the least height, of such ones the one of the least number.
    pub fn first_seen(&self) -> Option<u64>
        ensures first { result ≡ least (sooner (scope_rank self.now.scopes)) self.now.seen }
    {
        let order = self.queues.first_seen()?;
        Some(order.id().0)
    }

    /// What comes up, as the queues answer it: the lesser of the first seen scope and the first queued
    /// task, the task on equal order.
    pub fn next_work(&self) -> Option<Work>
        ensures queues { result ≡ next_work (seen_orders self.now) (queued_line self.now) }
        ensures least { result ≡ lesser_work (least_seen self.now) (least_queued self.now) }
    {
        self.queues.next_work()
    }

    /// What is seen and queued stands in the queues sorted, of one order as it joined; and the first ones
    /// are the least.
    #[inline(always)]
    pub fn stand_sorted(&self)
        ensures seen { seen_orders self.now ≡ map (entered_order self.now.scopes)
            (sorted_by (sooner (scope_rank self.now.scopes)) self.now.seen) }
        ensures queued { queued_line self.now
            ≡ map (under (owner_order self.now.scopes self.now.tasks))
            (sorted_by (sooner (task_rank self.now.scopes self.now.tasks)) self.now.queued) }
        ensures next { next_work (seen_orders self.now) (queued_line self.now)
            ≡ lesser_work (least_seen self.now) (least_queued self.now) }
    {
        let _queues = &self.queues;
    }

    /// The first queued task in its turn.
    pub fn next_queued(&self) -> Option<u64>
        ensures first { result ≡ first_number (queued_in_turn self.now) }
    {
        let task = self.queues.first_queued()?;
        Some(task.0)
    }

    /// The first task that is queued behind another one.
    pub fn queued_behind(&self, task: u64) -> Option<u64>
        ensures first { result ≡ first_number (behind_number task (queued_in_turn self.now)) }
    {
        let next = self.queues.queued_behind(Task(task))?;
        Some(next.0)
    }

    /// The first of the tasks of which a wake is posted.
    pub fn next_woken(&self) -> Option<u64>
        ensures first { result ≡ first_number (woken_in_turn self.now) }
    {
        let task = self.queues.first_woken()?;
        Some(task.0)
    }

    /// The first of these behind another one.
    pub fn woken_behind(&self, task: u64) -> Option<u64>
        ensures first { result ≡ first_number (behind_number task (woken_in_turn self.now)) }
    {
        let next = self.queues.woken_behind(Task(task))?;
        Some(next.0)
    }

    /// Whether a mark of an entered scope is posted.
    pub fn has_marks(&self) -> bool
        ensures marks { IsTrue result ↔ (living self.now.scopes (marks_in self.now.posted) ≢ []) }
    {
        self.queues.has_marks()
    }
}
