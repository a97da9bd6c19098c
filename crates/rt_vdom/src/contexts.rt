//! What a program provides to all scopes.

ghost use Rattle.std.specs.Prelude.{◌≡◌, IfOk, IfErr, OnOk};
ghost use Rattle.run_reports.specs.declared.fault.Fault.TheVariants as faults;
ghost use Rattle.rt_vdom.specs.Calls.{Keeps, LeavesAll, ProvidesAtRoot, RefusedFailed, WantsMemory};

use crate::dom::VirtualDom;
use author_calls::App;
use rt_values::OutOfMemory;
use run_answers::{DomFault, Stage};
use run_reports::Fault;

impl<A: App> VirtualDom<A> {
    /// The dom whose root wrapper provides a value of a kind. Refused for want of memory alone. A
    /// refusal drops the dom. In dioxus-core `VirtualDom::with_root_context`, where the kind is the
    /// value's type.
    pub fn with_root_context(self, kind: u32, value: A::Value) -> Result<VirtualDom<A>, Fault>
        ensures provided { IfOk result (λ dom.
            ProvidesAtRoot (λ app. A.meaning app) kind value self dom) }
        ensures owned { IfOk result (λ dom. Keeps self dom) }
        ensures cause { IfErr result (λ fault. fault ≡ faults.OutOfMemory) }
    {
        let mut dom = self;
        dom.leads();
        let alloc = dom.machine.scopes.alloc;
        dom.machine
            .scopes
            .state
            .provide_asked(alloc, 0, kind, value)?;
        Ok(dom)
    }

    /// The root wrapper provides a value of a kind, before the build too. Refused of a dom that has
    /// failed, and for want of memory; all stays as it was. In dioxus-core
    /// `VirtualDom::provide_root_context`, where the kind is the value's type.
    pub fn provide_root_context(&mut self, kind: u32, value: A::Value) -> Result<(), DomFault>
        ensures provided { OnOk result
            (ProvidesAtRoot (λ app. A.meaning app) kind value self.old self.new) }
        ensures refused { RefusedFailed WantsMemory self.old self.new result }
        ensures owned { Keeps self.old self.new }
        ensures kept { LeavesAll self.old self.new result }
    {
        self.leads();
        let alloc = self.machine.scopes.alloc;
        match self.stage {
            Stage::Failed => Err(DomFault::Failed),
            _ => match self
                .machine
                .scopes
                .state
                .provide_asked(alloc, 0, kind, value)
            {
                Ok(()) => Ok(()),
                Err(OutOfMemory) => Err(DomFault::Run(Fault::OutOfMemory)),
            },
        }
    }
}
