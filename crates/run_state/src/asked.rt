//! What a program asks for beside the calls of bodies: a refusal leaves all as it was.
ghost use Rattle.std.specs.Prelude.{◌≡◌, IsOk, OnOk, OnErr, None};
ghost use Rattle.std.specs.Fn.{FnOnceReturnsAtMut};
ghost use Rattle.rt_model.specs.State.{change, suspense_context};
ghost use Rattle.rt_model.specs.World.{Application};
ghost use Rattle.rt_model.specs.OneLog.{types};
ghost use Rattle.rt_model.specs.Commands.{activated, clear_error, frozen_at, provide_context, registered, spawned, throw_error};
ghost use Rattle.rt_model.specs.Laws.{Tests};
ghost use Rattle.rt_model.specs.Lists.{at};
ghost use Rattle.tree_mirror.specs.Mirror.{error_of};
ghost use Rattle.run_state.specs.Drawn.{kept_for};
ghost use Rattle.run_state.specs.Mirror.{ScopeChange, state_of};

use crate::state::State;
use rt_values::OutOfMemory;
use run_records::Scope;
use std::alloc::Global;
use tree_nodes::{CapturedError, Parts};

impl<P: Parts> State<P> {
    /// A new task that no task's poll spawned, active and woken, where its scope is live.
    pub fn spawn_asked(
        &mut self,
        scope: u64,
        task: u64,
        state: P::TaskState,
        isomorphic: bool,
    ) -> Result<(), OutOfMemory>
        ensures spawned { OnOk result ((g : _) → state_of g self.new
            ≡ spawned (state_of g self.old) None scope task state isomorphic) }
        ensures err { OnErr result (self.new ≡ self.old) }
    {
        self.spawn(None, scope, task, state, isomorphic)
    }

    /// Pauses a task or makes it active. A change from paused to active wakes it.
    pub fn activate_asked(&mut self, task: u64, active: bool) -> Result<(), OutOfMemory>
        ensures ok { IsOk result }
        ensures activated { OnOk result ((g : _) →
            state_of g self.new ≡ activated (state_of g self.old) task active
            (at (state_of g self.old).tasks task)) }
        ensures err { OnErr result (self.new ≡ self.old) }
    {
        self.set_active(task, active)
    }

    /// An error comes to the nearest error boundary from a scope upwards, which keeps it where it kept
    /// none; the readers are marked.
    pub fn throw_asked(
        &mut self,
        _alloc: Global,
        scope: u64,
        error: CapturedError,
    ) -> Result<(), OutOfMemory>
        ensures thrown { OnOk result ((g : _) →
            state_of g self.new ≡ throw_error (state_of g self.old) scope (error_of error)) }
        ensures err { OnErr result (self.new ≡ self.old) }
    {
        self.throw_error(scope, error)
    }

    /// Empties the slot of the nearest error boundary from a scope upwards, and marks its readers, also
    /// where it was empty.
    pub fn clear_asked(&mut self, _alloc: Global, scope: u64) -> Result<(), OutOfMemory>
        ensures cleared { OnOk result ((g : _) →
            state_of g self.new ≡ clear_error (state_of g self.old) scope) }
        ensures err { OnErr result (self.new ≡ self.old) }
    {
        self.clear_error(scope)
    }

    /// A live scope provides a value of a kind. Those who read that are marked where it was absent or
    /// differs.
    pub fn provide_asked(
        &mut self,
        _alloc: Global,
        scope: u64,
        kind: u32,
        value: P::Value,
    ) -> Result<(), OutOfMemory>
        ensures provided { (app : Application (types P.Component P.Props P.Value P.Handler P.TaskState P.Effect P.Payload))
            → Tests P.Value app.same_value → OnOk result ((g : _) → state_of g self.new
            ≡ provide_context app (state_of g self.old) scope kind value) }
        ensures err { OnErr result (self.new ≡ self.old) }
    {
        self.provide_context(scope, kind, value)
    }

    /// A callback waits for the next turn to its children of the scope's suspense boundary.
    pub fn register_asked(&mut self, scope: u64, effect: P::Effect) -> Result<(), OutOfMemory>
        ensures registered { OnOk result ((g : _) →
            state_of g self.new ≡ registered (state_of g self.old) scope effect
            (suspense_context (state_of g self.old) scope)) }
        ensures err { OnErr result (self.new ≡ self.old) }
    {
        self.register(scope, effect)
    }

    /// Freezes the scope's suspense boundary, so that a suspended render passes over what is below it.
    pub fn freeze_asked(&mut self, scope: u64) -> Result<(), OutOfMemory>
        ensures frozen { OnOk result ((g : _) →
            state_of g self.new ≡ frozen_at (state_of g self.old)
            (suspense_context (state_of g self.old) scope)) }
        ensures err { OnErr result (self.new ≡ self.old) }
    {
        self.freeze(scope)
    }

    /// Changes what is kept of a scope, where it is live.
    pub(crate) fn change_asked<F: FnOnce(&mut Scope<P>) -> Result<(), OutOfMemory>>(
        &mut self,
        scope: u64,
        apply: F,
    ) -> Result<(), OutOfMemory>
        requires callable { F.IsAlwaysCallable apply }
        requires stay { (x y : Scope P P.Component P.Props P.Value P.Handler P.TaskState P.Effect P.Payload) (done : _)
            → FnOnceReturnsAtMut F.FnOnce apply x done y → kept_for y ≡ kept_for x }
        ensures changed { (k : ScopeChange P P.Component P.Props P.Value P.Handler P.TaskState P.Effect P.Payload)
            → ((x y : Scope P P.Component P.Props P.Value P.Handler P.TaskState P.Effect P.Payload)
            → FnOnceReturnsAtMut F.FnOnce apply x result y → OnOk result (y ≡ k.code x))
            → OnOk result ((g : _) → state_of g self.new ≡ change (state_of g self.old) scope k.model) }
        ensures err { ((x y : Scope P P.Component P.Props P.Value P.Handler P.TaskState P.Effect P.Payload)
            → FnOnceReturnsAtMut F.FnOnce apply x result y → OnErr result (y ≡ x))
            → OnErr result (self.new ≡ self.old) }
    {
        self.rows.table.change(scope, apply)
    }
}
