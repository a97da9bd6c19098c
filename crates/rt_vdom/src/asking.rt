//! Marks and writes.
ghost use Rattle.std.specs.Prelude.{◌≡◌, IfOk, IfErr, is_some};
ghost use Rattle.rt_model.specs.Lists.{at};
ghost use Rattle.rt_model.specs.Commands.{write_cell};
ghost use Rattle.rt_model.specs.Sentences.{marked_now, all_marked_now};
ghost use Rattle.rt_vdom.specs.Calls.{Does, FailsOn, Keeps, LeavesAll, WantsBuilt, WantsMemory, WantsNothing, context_posted};
ghost use Rattle.rt_vdom.specs.Doms.{StateIn};

use crate::dom::VirtualDom;
use author_calls::App;
use rt_cells::ReactiveContext;
use rt_values::{OutOfMemory, ScopeId};
use run_answers::{DomFault, Stage, context_target, has_cell};
use run_reports::Fault;

impl<A: App> VirtualDom<A> {
    /// Marks a scope, which is seen at once; of one that isn't live nothing changes. It takes no
    /// memory. Refused of a dom that isn't built or has failed, and of no other; it stays as it
    /// was. In dioxus-core `VirtualDom::mark_dirty`, and the runtime's `needs_update`, which posts.
    pub fn mark_dirty(&mut self, id: ScopeId) -> Result<(), DomFault>
        ensures marked { Does (λ app. A.meaning app) (λ w. marked_now w id.0) self.old self.new result }
        ensures refused { WantsBuilt WantsNothing self.old self.new result }
        ensures owned { Keeps self.old self.new }
        ensures kept { LeavesAll self.old self.new result }
    {
        self.leads();
        match self.stage {
            Stage::Failed => Err(DomFault::Failed),
            Stage::Fresh => Err(DomFault::NotBuilt),
            Stage::Built => match self.machine.scopes.state.mark_now(id.0) {
                Ok(()) => Ok(()),
                Err(OutOfMemory) => Err(DomFault::Run(Fault::OutOfMemory)),
            },
        }
    }

    /// Marks every live scope, which are seen at once. It takes no memory. Refused of a dom that
    /// isn't built or has failed, and of no other; it stays as it was. In dioxus-core
    /// `VirtualDom::mark_all_dirty`.
    pub fn mark_all_dirty(&mut self) -> Result<(), DomFault>
        ensures marked { Does (λ app. A.meaning app) (λ w. all_marked_now w.scopes w)
            self.old self.new result }
        ensures refused { WantsBuilt WantsNothing self.old self.new result }
        ensures owned { Keeps self.old self.new }
        ensures kept { LeavesAll self.old self.new result }
    {
        self.leads();
        let alloc = self.machine.scopes.alloc;
        match self.stage {
            Stage::Failed => Err(DomFault::Failed),
            Stage::Fresh => Err(DomFault::NotBuilt),
            Stage::Built => match self.machine.scopes.state.mark_all_now(alloc) {
                Ok(()) => Ok(()),
                Err(OutOfMemory) => Err(DomFault::Run(Fault::OutOfMemory)),
            },
        }
    }

    /// Posts a mark or wake of what a reactive context targets, which the next look sees. False
    /// where the context is gone, and then nothing changes. It takes no memory. Refused of a dom
    /// that isn't built or has failed, and of no other; it stays as it was. In dioxus-core
    /// `ReactiveContext::mark_dirty`.
    pub fn mark_context(&mut self, c: ReactiveContext) -> Result<bool, DomFault>
        ensures posted { Does (λ app. A.meaning app) (λ w. context_posted w c.0)
            self.old self.new result }
        ensures live { IfOk result (λ live. (g : _) →
            live ≡ is_some (at (StateIn g self.old).contexts c.0)) }
        ensures refused { WantsBuilt WantsNothing self.old self.new result }
        ensures owned { Keeps self.old self.new }
        ensures kept { LeavesAll self.old self.new result }
    {
        match self.stage {
            Stage::Failed => Err(DomFault::Failed),
            Stage::Fresh => Err(DomFault::NotBuilt),
            Stage::Built => self.post_context(c.0),
        }
    }

    /// Posts what a reactive context targets. False where the context is gone.
    fn post_context(&mut self, context: u64) -> Result<bool, DomFault>
        ensures posted { Does (λ app. A.meaning app) (λ w. context_posted w context)
            self.old self.new result }
        ensures live { IfOk result (λ live. (g : _) →
            live ≡ is_some (at (StateIn g self.old).contexts context)) }
        ensures refused { IfErr result (λ fault. WantsNothing fault) }
        ensures owned { Keeps self.old self.new }
        ensures kept { LeavesAll self.old self.new result }
    {
        self.leads();
        match context_target(&self.machine.scopes.state, context) {
            Some(target) => match self.machine.scopes.state.post_target(target) {
                Ok(()) => Ok(true),
                Err(OutOfMemory) => Err(DomFault::Run(Fault::OutOfMemory)),
            },
            None => Ok(false),
        }
    }

    /// Writes a cell and marks its readers. False where it isn't there, and then nothing changes.
    /// Refused of a dom that isn't built or has failed, which stays as it was; after want of memory
    /// it has failed. dioxus-core has no such call: cells are a library's there.
    pub fn write(&mut self, cell: u64, value: A::Value) -> Result<bool, DomFault>
        ensures wrote { Does (λ app. A.meaning app) (λ w. write_cell w cell value)
            self.old self.new result }
        ensures live { IfOk result (λ live. (g : _) →
            live ≡ is_some (at (StateIn g self.old).cells cell)) }
        ensures refused { WantsBuilt WantsMemory self.old self.new result }
        ensures owned { Keeps self.old self.new }
        ensures fails { FailsOn self.new result }
    {
        self.leads();
        match self.stage {
            Stage::Failed => Err(DomFault::Failed),
            Stage::Fresh => Err(DomFault::NotBuilt),
            Stage::Built => {
                let live = has_cell(&self.machine.scopes.state, cell);
                match self.machine.scopes.state.write_cell(cell, value) {
                    Ok(()) => Ok(live),
                    Err(OutOfMemory) => Err(self.out_of_memory()),
                }
            }
        }
    }
}
