//! Renders and polls while suspended, and what suspense boundaries wait for.
ghost use Rattle.std.specs.Prelude.{◌≡◌, ◌≤◌, IfErr};
ghost use Rattle.rt_model.specs.Commands.{registered, frozen_at};
ghost use Rattle.rt_model.specs.Rendering.{suspended_remains};
ghost use Rattle.rt_model.specs.State as model;
ghost use Rattle.rt_vdom.specs.Calls.{CausesAt, Does, FailsOn, Keeps, LeavesAll, Ran, WantsBuilt, WantsMemory};
ghost use Rattle.rt_vdom.specs.Doms.{StateIn};
ghost use Rattle.rt_vdom.specs.Handles.{PollsOnSuspended, PollsSuspended, RendersSuspended};
ghost use Rattle.run_state.specs.Names.{scope_numbers};

use crate::dom::VirtualDom;
use author_calls::App;
use rt_boundary::SuspenseContext;
use rt_edits::WriteMutations;
use rt_inbox::Drained;
use rt_values::{List, OutOfMemory, ScopeId};
use run_answers::{DomFault, Stage, suspended_remains, waits_suspended};
use run_reports::{Fault, Poll};
use run_rounds::{poll_suspended, render_suspended};

impl<A: App> VirtualDom<A> {
    /// Takes the work that a suspended render may take: tasks that aren't a client's alone, and
    /// scopes below a suspense boundary that isn't frozen. Other work is passed over. The
    /// boundaries that turned to their children since the last answer, by height. Refused of a dom
    /// that isn't built or has failed, which stays as it was. After a fault it has failed, unless
    /// units were spent: what is owed then stays, and a later call goes on. In dioxus-core
    /// `VirtualDom::render_suspense_immediate`, which writes nowhere.
    pub fn render_suspense_immediate<M: WriteMutations>(
        &mut self,
        to: &mut M,
    ) -> Result<List<ScopeId>, DomFault>
        ensures renders { RendersSuspended (λ app. A.meaning app) (M.taken to.old) (M.taken to.new)
            self.old self.new result }
        ensures refused { WantsBuilt Ran self.old self.new result }
        ensures owned { Keeps self.old self.new }
        ensures fails { FailsOn self.new result }
        ensures caused { IfErr result (λ fault.
            CausesAt self.old.limits (M.faults to.old) (M.faults to.new) fault) }
        ensures counted { M.faults to.old ≤ M.faults to.new }
    {
        match self.stage {
            Stage::Failed => Err(DomFault::Failed),
            Stage::Fresh => Err(DomFault::NotBuilt),
            Stage::Built => self.render_suspended(to),
        }
    }

    /// A render while suspended.
    fn render_suspended<M: WriteMutations>(&mut self, to: &mut M) -> Result<List<ScopeId>, DomFault>
        ensures renders { RendersSuspended (λ app. A.meaning app) (M.taken to.old) (M.taken to.new)
            self.old self.new result }
        ensures refused { IfErr result (λ fault. Ran fault) }
        ensures owned { Keeps self.old self.new }
        ensures fails { self.old.stage ≡ Stage.Built → FailsOn self.new result }
        ensures caused { IfErr result (λ fault.
            CausesAt self.old.limits (M.faults to.old) (M.faults to.new) fault) }
        ensures counted { M.faults to.old ≤ M.faults to.new }
    {
        match render_suspended(
            &mut self.machine,
            &self.app,
            &mut self.calls,
            self.limits,
            to,
        ) {
            Ok(resolved) => Ok(resolved),
            Err(ended) => Err(self.ended(ended)),
        }
    }

    /// Takes messages in, and while no scope is seen polls the tasks that a suspended render may
    /// poll. Pending where no scope is seen then, a suspended task remains, and no message was left
    /// to drain. Refused of a dom that isn't built or has failed, which stays as it was. After a
    /// fault it has failed, unless units were spent: what is owed then stays, and a later call goes
    /// on. In dioxus-core `VirtualDom::wait_for_suspense_work`, which waits.
    pub fn poll_suspense(&mut self, drained: &Drained) -> Result<Poll<()>, DomFault>
        ensures polls { PollsSuspended (λ app. A.meaning app) drained.now self.old self.new result }
        ensures refused { WantsBuilt Ran self.old self.new result }
        ensures owned { Keeps self.old self.new }
        ensures fails { FailsOn self.new result }
        ensures caused { IfErr result (λ fault. CausesAt self.old.limits 0 0 fault) }
    {
        match self.stage {
            Stage::Failed => Err(DomFault::Failed),
            Stage::Fresh => Err(DomFault::NotBuilt),
            Stage::Built => {
                self.take_messages(drained)?;
                self.poll_suspended()?;
                Ok(waits_suspended(&self.machine.scopes.state, drained.emptied))
            }
        }
    }

    /// Polls while suspended.
    fn poll_suspended(&mut self) -> Result<(), DomFault>
        ensures polls { PollsOnSuspended (λ app. A.meaning app) self.old self.new result }
        ensures refused { IfErr result (λ fault. Ran fault) }
        ensures owned { Keeps self.old self.new }
        ensures fails { self.old.stage ≡ Stage.Built → FailsOn self.new result }
        ensures caused { IfErr result (λ fault. CausesAt self.old.limits 0 0 fault) }
    {
        match poll_suspended(&mut self.machine, &self.app, &mut self.calls, self.limits) {
            Ok(()) => Ok(()),
            Err(ended) => Err(self.ended(ended)),
        }
    }

    /// The scopes that suspended renders passed over, in order, each once. A scope is listed until
    /// it runs or is removed. dioxus-core has no such call: it logs them.
    pub fn skipped(&self) -> &[ScopeId]
        ensures skipped { (g : _) → scope_numbers result.now ≡ (StateIn g self.now).skipped }
    {
        self.machine.scopes.state.skipped.as_slice()
    }

    /// Whether a task is live on which a body has suspended; no dom is refused. In dioxus-core
    /// `VirtualDom::suspended_tasks_remaining`.
    pub fn suspended_tasks_remaining(&self) -> bool
        ensures remains { (g : _) → result ≡ suspended_remains (StateIn g self.now).tasks }
    {
        suspended_remains(&self.machine.scopes.state)
    }

    /// What is called when a boundary next turns to its children. Of a removed one nothing changes.
    /// Refused of a dom that isn't built or has failed, and for want of memory; all stays as it
    /// was. In dioxus-core `SuspenseContext::after_suspense_resolved`, which takes a closure.
    pub fn after_suspense_resolved(
        &mut self,
        c: SuspenseContext,
        effect: A::Effect,
    ) -> Result<(), DomFault>
        ensures registered { Does (λ app. A.meaning app) (λ w.
            registered w c.scope.0 effect (model.suspense_context w c.scope.0))
            self.old self.new result }
        ensures refused { WantsBuilt WantsMemory self.old self.new result }
        ensures owned { Keeps self.old self.new }
        ensures kept { LeavesAll self.old self.new result }
    {
        self.leads();
        match self.stage {
            Stage::Failed => Err(DomFault::Failed),
            Stage::Fresh => Err(DomFault::NotBuilt),
            Stage::Built => match self.machine.scopes.state.register_asked(c.scope.0, effect) {
                Ok(()) => Ok(()),
                Err(OutOfMemory) => Err(DomFault::Run(Fault::OutOfMemory)),
            },
        }
    }

    /// Freezes a boundary, so that a suspended render passes over what is below it. Refused of a
    /// dom that isn't built or has failed, and for want of memory; all stays as it was. In
    /// dioxus-core `SuspenseContext::freeze`.
    pub fn freeze(&mut self, c: SuspenseContext) -> Result<(), DomFault>
        ensures frozen { Does (λ app. A.meaning app) (λ w.
            frozen_at w (model.suspense_context w c.scope.0)) self.old self.new result }
        ensures refused { WantsBuilt WantsMemory self.old self.new result }
        ensures owned { Keeps self.old self.new }
        ensures kept { LeavesAll self.old self.new result }
    {
        self.leads();
        match self.stage {
            Stage::Failed => Err(DomFault::Failed),
            Stage::Fresh => Err(DomFault::NotBuilt),
            Stage::Built => match self.machine.scopes.state.freeze_asked(c.scope.0) {
                Ok(()) => Ok(()),
                Err(OutOfMemory) => Err(DomFault::Run(Fault::OutOfMemory)),
            },
        }
    }
}
