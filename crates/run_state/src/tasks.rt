//! Tasks: spawned, paused, ended.
ghost use Rattle.std.specs.Prelude.{◌≡◌, ◌<◌, ◌&&◌, not, ◌++◌, ◌∷◌, [], nat_eq, IsOk, OnOk, OnErr, IfOk, IfSome, IfNone, Some, None, option_map, true, if◌then◌else◌};
ghost use Rattle.std.specs.Fn.{FnOnceReturnsAtMut};
ghost use Rattle.rt_model.specs.Lists.{at, has};
ghost use Rattle.rt_model.specs.State as model;
ghost use Rattle.rt_model.specs.Commands.{spawned, activated, end, unqueued};
ghost use Rattle.rt_model.specs.Removal.{end_all, tasks_in};
ghost use Rattle.run_owed.specs.Lists.{numbers_of};
ghost use Rattle.run_state.specs.Names.{task_kind_of};
ghost use Rattle.run_state.specs.Heights.{task_scope};
ghost use Rattle.run_state.specs.Mirror.{TaskChange, change_task, state_held, state_of, task_of};

use crate::holding::add_holding;
use crate::names::{Posted, TaskKind};
use crate::state::{State, TaskRow};
use rt_values::OutOfMemory;
use std::snapshot::Snapshot;
use tree_nodes::Parts;

impl<P: Parts> State<P> {
    /// A new task, active and woken, where its scope is live.
    pub fn spawn(
        &mut self,
        polled: Option<u64>,
        scope: u64,
        task: u64,
        state: P::TaskState,
        isomorphic: bool,
    ) -> Result<(), OutOfMemory>
        ensures spawned { OnOk result ((g : _) → state_of g self.new
            ≡ spawned (state_of g self.old) polled scope task state isomorphic) }
        ensures err { OnErr result (self.new ≡ self.old) }
    {
        if !self.is_live(scope) {
            return Ok(());
        }
        let kind = first_kind(isomorphic);
        let was = Snapshot::of(&state);
        self.push_task(
            task,
            TaskRow {
                scope,
                parent: polled,
                state: Some(state),
                was,
                active: true,
                kind,
            },
        )?;
        self.post(Posted::Woken(task))
    }

    /// Puts a task after the others, with its place for what will be owed of it.
    fn push_task(&mut self, task: u64, row: TaskRow<P>) -> Result<(), OutOfMemory>
        requires live { has (numbers_of self.old.owed.scopes) row.scope ≡ true }
        ensures pushed { OnOk result ((g : _) → state_of g self.new ≡ record (state_of g self.old) {
          tasks = (state_of g self.old).tasks ++ (task, task_of row) ∷ [];
        }) }
        ensures err { OnErr result (self.new ≡ self.old) }
    {
        let scope = row.scope;
        self.tasks.push(task, row)?;
        match self.owed.enter_task(task, scope) {
            Ok(()) => Ok(()),
            Err(OutOfMemory) => {
                self.tasks.take_last();
                Err(OutOfMemory)
            }
        }
    }

    /// Pauses a task or makes it active. A change from paused to active wakes it.
    pub fn set_active(&mut self, task: u64, active: bool) -> Result<(), OutOfMemory>
        ensures ok { IsOk result }
        ensures activated { OnOk result ((g : _) →
            state_of g self.new ≡ activated (state_of g self.old) task active
            (at (state_of g self.old).tasks task)) }
        ensures err { OnErr result (self.new ≡ self.old) }
    {
        let Some(row) = self.tasks.get(task) else {
            return Ok(());
        };
        let wakes = is_woken(active, row.active);
        self.make_active(task, active);
        if wakes {
            self.post(Posted::Woken(task))
        } else {
            Ok(())
        }
    }

    /// Pauses a live task or makes it active where it stands, which wants no memory.
    fn make_active(&mut self, task: u64, active: bool)
        ensures { (g : _) → state_of g self.new
            ≡ change_task (state_of g self.old) task (λ x. record x { active = active }) }
    {
        self.change_surely(
            task,
            |row: &mut TaskRow<P>| -> Result<(), OutOfMemory>
                ensures changed { row.new ≡ record row.old { active = active } }
                ensures stay { task_scope row.new ≡ task_scope row.old }
            {
                row.active = active;
                Ok(())
            },
        );
    }

    /// Changes what is kept of a task, where it is live, by what always changes it.
    fn change_surely<F: FnOnce(&mut TaskRow<P>) -> Result<(), OutOfMemory>>(
        &mut self,
        task: u64,
        apply: F,
    )
        requires callable { F.IsAlwaysCallable apply }
        requires stay { (x y : TaskRow P P.Component P.Props P.Value P.Handler P.TaskState P.Effect
            P.Payload) (done : _) → FnOnceReturnsAtMut F.FnOnce apply x done y → task_scope y ≡ task_scope x }
        ensures { (k : TaskChange P P.Component P.Props P.Value P.Handler P.TaskState P.Effect P.Payload)
            → ((x y : TaskRow P P.Component P.Props P.Value P.Handler P.TaskState P.Effect P.Payload)
            (done : _) → FnOnceReturnsAtMut F.FnOnce apply x done y → y ≡ k.code x)
            → (g : _) → state_of g self.new ≡ change_task (state_of g self.old) task k.model }
    {
        let _done = self.tasks.change(task, apply);
    }

    /// Changes what is kept of a task, where it is live.
    pub(crate) fn change_task<F: FnOnce(&mut TaskRow<P>) -> Result<(), OutOfMemory>>(
        &mut self,
        task: u64,
        apply: F,
    ) -> Result<(), OutOfMemory>
        requires callable { F.IsAlwaysCallable apply }
        requires stay { (x y : TaskRow P P.Component P.Props P.Value P.Handler P.TaskState P.Effect
            P.Payload) (done : _) → FnOnceReturnsAtMut F.FnOnce apply x done y → task_scope y ≡ task_scope x }
        ensures { (k : TaskChange P P.Component P.Props P.Value P.Handler P.TaskState P.Effect P.Payload)
            → ((x y : TaskRow P P.Component P.Props P.Value P.Handler P.TaskState P.Effect P.Payload)
            → FnOnceReturnsAtMut F.FnOnce apply x result y → OnOk result (y ≡ k.code x))
            → OnOk result ((g : _) → state_of g self.new ≡ change_task (state_of g self.old) task k.model) }
    {
        self.tasks.change(task, apply)
    }

    /// Ends a task: its entries go, and each boundary that it held is released and marked.
    pub fn end(&mut self, task: u64) -> Result<(), OutOfMemory>
        ensures { OnOk result ((g : _) →
            state_of g self.new ≡ end (state_of g self.old) task) }
    {
        if !self.has_task(task) {
            return Ok(());
        }
        self.owed.end_task(task);
        add_holding(&self.rows.table, &self.held, task, &mut self.owed);
        self.tasks.remove(task);
        self.release(task)
    }

    /// Takes out a task's wakes, posted or queued.
    pub fn unqueue(&mut self, task: u64)
        ensures { (g : _) → state_of g self.new ≡ unqueued (state_of g self.old) task }
    {
        self.owed.unwake(task);
    }

    /// Ends the tasks of a scope, one after another. No others are gone through.
    pub fn end_tasks(&mut self, scope: u64) -> Result<(), OutOfMemory>
        ensures { OnOk result ((g : _) → state_of g self.new
            ≡ end_all (state_of g self.old) (tasks_in scope (state_of g self.old).tasks)) }
    {
        while let Some(task) = self.owed.first_task(scope) {
            self.owed.tasks_apart();
            self.end(task)?;
        }
        Ok(())
    }

    /// Takes a task's state out, to be polled. None where the task has ended, or is polled already.
    pub fn take_state(&mut self, task: u64) -> Option<P::TaskState>
        // The state that is taken out still stands for the task.
        ensures left { (g : _) → state_of g self.new ≡ state_of g self.old }
        ensures own { IfSome result (λ taken. (g : _) →
            option_map (λ x. x.state) (at (state_of g self.old).tasks task) ≡ Some taken) }
        ensures none { IfNone result (state_held (at self.old.tasks task) ≡ None) }
    {
        let Some(row) = self.tasks.get(task) else {
            return None;
        };
        let Some(state) = &row.state else {
            return None;
        };
        let polled = TaskRow {
            scope: row.scope,
            parent: row.parent,
            state: None,
            was: Snapshot::of(state),
            active: row.active,
            kind: row.kind,
        };
        match self.tasks.replace(task, polled) {
            Some(former) => former.state,
            None => None,
        }
    }

    /// Puts back the state of a task that is still pending.
    pub fn keep_state(&mut self, task: u64, state: P::TaskState) -> Result<(), OutOfMemory>
        ensures { OnOk result ((g : _) → state_of g self.new
            ≡ change_task (state_of g self.old) task (λ x. record x { state = state })) }
    {
        let was = Snapshot::of(&state);
        self.change_task(
            task,
            |row: &mut TaskRow<P>| -> Result<(), OutOfMemory>
                ensures changed { OnOk result (row.new ≡ record row.old {
                  state = Some state;
                  was = was;
                }) }
                ensures stay { task_scope row.new ≡ task_scope row.old }
            {
                row.state = Some(state);
                row.was = was;
                Ok(())
            },
        )
    }
}

/// Who may poll a new task in a suspended render.
fn first_kind(isomorphic: bool) -> TaskKind
    ensures { task_kind_of result
        ≡ (if isomorphic then model.Isomorphic else model.ClientOnly) }
{
    if isomorphic {
        TaskKind::Isomorphic
    } else {
        TaskKind::ClientOnly
    }
}

/// Whether a change from paused to active wakes a task.
fn is_woken(active: bool, was_active: bool) -> bool
    ensures { result ≡ (active && not was_active) }
{
    active && !was_active
}
