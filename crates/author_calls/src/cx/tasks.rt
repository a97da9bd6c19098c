//! Tasks, effects and the suspense boundary, which change once the call has returned.
ghost use Rattle.std.specs.Prelude.{◌≡◌, ◌↔◌, IsTrue, IfOk, IfErr, OnOk, Err, true, false};
ghost use Rattle.rt_model.specs.Program.{faults, says, drew_task};
ghost use Rattle.rt_model.specs.World as model;
ghost use Rattle.rt_model.specs.World.{at_end};
ghost use Rattle.author_calls.specs.Calls.{call_of};
ghost use Rattle.author_calls.specs.Steps.{WantedMemory, DrawsNone, IsTold};

use crate::cx::Cx;
use rt_values::Task;
use run_records::{Command, Counter, CxFault};
use tree_nodes::Parts;

impl<'a, P: Parts, K> Cx<'a, P, K> {
    /// Spawns a task of the caller's scope, which runs on the client alone. Refused where tasks
    /// have no number left, and for want of memory; the turn keeps the first refusal as its fault,
    /// and nothing else changes. In dioxus-core `spawn`, which takes a future.
    pub fn spawn(&mut self, state: P::TaskState) -> Result<Task, CxFault>
        ensures value { IfOk result (λ task. task.0 ≡ self.old.next.tasks) }
        ensures call { OnOk result
            (call_of self.new ≡ drew_task (call_of self.old) state false false) }
        ensures at_end { (result ≡ Err (CxFault.IdsExhausted Counter.Tasks))
            ↔ IsTrue (at_end self.old.next.tasks) }
        ensures fault { OnOk result (self.new.fault ≡ self.old.fault) }
        ensures err { IfErr result (DrawsNone Counter.Tasks self.old self.new) }
        ensures told { IfErr result (IsTold
            (faults (call_of self.old) (model.CounterAtEnd model.Tasks)) self.old self.new) }
        ensures world { self.new.world ≡ self.old.world }
    {
        self.spawn_as(state, false, false)
    }

    /// Spawns a task of the caller's scope, which runs on the server too. Refused where tasks have
    /// no number left, and for want of memory; the turn keeps the first refusal as its fault, and
    /// nothing else changes. In dioxus-core `spawn_isomorphic`.
    pub fn spawn_isomorphic(&mut self, state: P::TaskState) -> Result<Task, CxFault>
        ensures value { IfOk result (λ task. task.0 ≡ self.old.next.tasks) }
        ensures call { OnOk result
            (call_of self.new ≡ drew_task (call_of self.old) state false true) }
        ensures at_end { (result ≡ Err (CxFault.IdsExhausted Counter.Tasks))
            ↔ IsTrue (at_end self.old.next.tasks) }
        ensures fault { OnOk result (self.new.fault ≡ self.old.fault) }
        ensures err { IfErr result (DrawsNone Counter.Tasks self.old self.new) }
        ensures told { IfErr result (IsTold
            (faults (call_of self.old) (model.CounterAtEnd model.Tasks)) self.old self.new) }
        ensures world { self.new.world ≡ self.old.world }
    {
        self.spawn_as(state, false, true)
    }

    /// Spawns a task of the root wrapper, which outlives the caller's scope. Refused where tasks
    /// have no number left, and for want of memory; the turn keeps the first refusal as its fault,
    /// and nothing else changes. In dioxus-core `spawn_forever`.
    pub fn spawn_forever(&mut self, state: P::TaskState) -> Result<Task, CxFault>
        ensures value { IfOk result (λ task. task.0 ≡ self.old.next.tasks) }
        ensures call { OnOk result
            (call_of self.new ≡ drew_task (call_of self.old) state true false) }
        ensures at_end { (result ≡ Err (CxFault.IdsExhausted Counter.Tasks))
            ↔ IsTrue (at_end self.old.next.tasks) }
        ensures fault { OnOk result (self.new.fault ≡ self.old.fault) }
        ensures err { IfErr result (DrawsNone Counter.Tasks self.old self.new) }
        ensures told { IfErr result (IsTold
            (faults (call_of self.old) (model.CounterAtEnd model.Tasks)) self.old self.new) }
        ensures world { self.new.world ≡ self.old.world }
    {
        self.spawn_as(state, true, false)
    }

    /// Spawns a task.
    #[tactic(auto, using(crate::proofs::Told::telling))]
    fn spawn_as(
        &mut self,
        state: P::TaskState,
        forever: bool,
        isomorphic: bool,
    ) -> Result<Task, CxFault>
        ensures value { IfOk result (λ task. task.0 ≡ self.old.next.tasks) }
        ensures call { OnOk result
            (call_of self.new ≡ drew_task (call_of self.old) state forever isomorphic) }
        ensures at_end { (result ≡ Err (CxFault.IdsExhausted Counter.Tasks))
            ↔ IsTrue (at_end self.old.next.tasks) }
        ensures fault { OnOk result (self.new.fault ≡ self.old.fault) }
        ensures err { IfErr result (DrawsNone Counter.Tasks self.old self.new) }
        ensures told { IfErr result (IsTold
            (faults (call_of self.old) (model.CounterAtEnd model.Tasks)) self.old self.new) }
        ensures world { self.new.world ≡ self.old.world }
    {
        let number = self.next.tasks;
        if number == u64::MAX {
            return Err(self.refuse(CxFault::IdsExhausted {
                what: Counter::Tasks,
            }));
        }
        let task = Task(number);
        self.say(Command::Spawn {
            task,
            state,
            forever,
            isomorphic,
        })?;
        self.next.tasks = number + 1;
        Ok(task)
    }

    /// Ends a task once the call has returned. Refused for want of memory alone, which the turn
    /// keeps as its fault where it is the first; nothing else changes. In dioxus-core
    /// `remove_future`.
    pub fn remove_future(&mut self, task: Task) -> Result<(), CxFault>
        ensures call { OnOk result
            (call_of self.new ≡ says (call_of self.old) (model.RemoveFuture task.0)) }
        ensures fault { OnOk result (self.new.fault ≡ self.old.fault) }
        ensures err { IfErr result (WantedMemory self.old self.new) }
        ensures world { self.new.world ≡ self.old.world }
    {
        self.say(Command::RemoveFuture { task })
    }

    /// Posts a wake of a task. Refused for want of memory alone, which the turn keeps as its fault
    /// where it is the first; nothing else changes. In dioxus-core `Task::wake`.
    pub fn wake(&mut self, task: Task) -> Result<(), CxFault>
        ensures call { OnOk result
            (call_of self.new ≡ says (call_of self.old) (model.Wake task.0)) }
        ensures fault { OnOk result (self.new.fault ≡ self.old.fault) }
        ensures err { IfErr result (WantedMemory self.old self.new) }
        ensures world { self.new.world ≡ self.old.world }
    {
        self.say(Command::Wake { task })
    }

    /// Pauses a task, or lets it go on. Refused for want of memory alone, which the turn keeps as
    /// its fault where it is the first; nothing else changes. In dioxus-core `Task::set_active`,
    /// and `pause` and `resume`.
    pub fn set_active(&mut self, task: Task, active: bool) -> Result<(), CxFault>
        ensures call { OnOk result
            (call_of self.new ≡ says (call_of self.old) (model.SetActive task.0 active)) }
        ensures fault { OnOk result (self.new.fault ≡ self.old.fault) }
        ensures err { IfErr result (WantedMemory self.old self.new) }
        ensures world { self.new.world ≡ self.old.world }
    {
        self.say(Command::SetActive { task, active })
    }

    /// Queues an effect of the caller's scope, which is done once no other work is owed. Refused
    /// for want of memory alone, which the turn keeps as its fault where it is the first; nothing
    /// else changes. In dioxus-core `queue_effect`, which takes a closure.
    pub fn queue_effect(&mut self, effect: P::Effect) -> Result<(), CxFault>
        ensures call { OnOk result
            (call_of self.new ≡ says (call_of self.old) (model.QueueEffect effect)) }
        ensures fault { OnOk result (self.new.fault ≡ self.old.fault) }
        ensures err { IfErr result (WantedMemory self.old self.new) }
        ensures world { self.new.world ≡ self.old.world }
    {
        self.say(Command::QueueEffect(effect))
    }

    /// Leaves an effect to the caller's suspense boundary, which runs it once its children show;
    /// without one nothing changes. Refused for want of memory alone, which the turn keeps as its
    /// fault where it is the first; nothing else changes. In dioxus-core
    /// `SuspenseContext::after_suspense_resolved`.
    pub fn after_suspense_resolved(&mut self, effect: P::Effect) -> Result<(), CxFault>
        ensures call { OnOk result
            (call_of self.new ≡ says (call_of self.old) (model.Resolved effect)) }
        ensures fault { OnOk result (self.new.fault ≡ self.old.fault) }
        ensures err { IfErr result (WantedMemory self.old self.new) }
        ensures world { self.new.world ≡ self.old.world }
    {
        self.say(Command::Resolved(effect))
    }

    /// Freezes the caller's suspense boundary; without one nothing changes. Refused for want of
    /// memory alone, which the turn keeps as its fault where it is the first; nothing else changes.
    /// In dioxus-core `SuspenseContext::freeze`.
    pub fn freeze(&mut self) -> Result<(), CxFault>
        ensures call { OnOk result (call_of self.new ≡ says (call_of self.old) model.Freeze) }
        ensures fault { OnOk result (self.new.fault ≡ self.old.fault) }
        ensures err { IfErr result (WantedMemory self.old self.new) }
        ensures world { self.new.world ≡ self.old.world }
    {
        self.say(Command::Freeze)
    }
}
