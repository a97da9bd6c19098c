//! Errors that a program throws and clears.
ghost use Rattle.std.specs.Prelude.{IfErr};
ghost use Rattle.rt_model.specs.Commands.{clear_error};
ghost use Rattle.rt_vdom.specs.Calls.{Does, Keeps, LeavesAll, WantsBuilt, WantsMemory, WantsNumber, thrown_by};
ghost use Rattle.rt_vdom.specs.Doms.{NextIn};
ghost use Rattle.run_records.specs.declared.faults.Counter.TheVariants as counters;

use crate::dom::VirtualDom;
use author_calls::App;
use rt_boundary::ErrorContext;
use rt_values::{OutOfMemory, ScopeId, Text};
use run_answers::{DomFault, Stage, after};
use run_reports::{Counter, Fault};
use tree_nodes::CapturedError;

impl<A: App> VirtualDom<A> {
    /// An error with this text comes to the nearest error boundary from a scope upwards, which
    /// keeps it where it kept none. Refused of a dom that isn't built or has failed, where errors
    /// have no number left, and for want of memory; all stays as it was. In dioxus-core the
    /// runtime's `throw_error`, which takes an error.
    pub fn throw_error(&mut self, id: ScopeId, text: Text) -> Result<(), DomFault>
        ensures thrown { Does (λ app. A.meaning app) (λ w. thrown_by w id.0 text)
            self.old self.new result }
        ensures refused { WantsBuilt (WantsNumber counters.Errors (NextIn self.old).errors)
            self.old self.new result }
        ensures owned { Keeps self.old self.new }
        ensures kept { LeavesAll self.old self.new result }
    {
        match self.stage {
            Stage::Failed => Err(DomFault::Failed),
            Stage::Fresh => Err(DomFault::NotBuilt),
            Stage::Built => self.throw_in(id.0, text),
        }
    }

    /// An error with this text comes to an error boundary, which keeps it where it kept none.
    /// Refused of a dom that isn't built or has failed, where errors have no number left, and for
    /// want of memory; all stays as it was. In dioxus-core `ErrorContext::insert_error`, which
    /// takes an error.
    pub fn insert_error(&mut self, c: ErrorContext, text: Text) -> Result<(), DomFault>
        ensures thrown { Does (λ app. A.meaning app) (λ w. thrown_by w c.scope.0 text)
            self.old self.new result }
        ensures refused { WantsBuilt (WantsNumber counters.Errors (NextIn self.old).errors)
            self.old self.new result }
        ensures owned { Keeps self.old self.new }
        ensures kept { LeavesAll self.old self.new result }
    {
        self.throw_error(c.scope, text)
    }

    /// An error comes to the nearest error boundary from a scope upwards.
    fn throw_in(&mut self, scope: u64, text: Text) -> Result<(), DomFault>
        ensures thrown { Does (λ app. A.meaning app) (λ w. thrown_by w scope text)
            self.old self.new result }
        ensures refused { IfErr result (λ fault.
            WantsNumber counters.Errors (NextIn self.old).errors fault) }
        ensures owned { Keeps self.old self.new }
        ensures kept { LeavesAll self.old self.new result }
    {
        self.leads();
        let alloc = self.machine.scopes.alloc;
        let state = &mut self.machine.scopes.state;
        let serial = state.next.errors;
        let Some(next) = after(serial) else {
            return Err(DomFault::Run(Fault::IdsExhausted {
                what: Counter::Errors,
            }));
        };
        state.next.errors = next;
        match state.throw_asked(alloc, scope, CapturedError { serial, text }) {
            Ok(()) => Ok(()),
            Err(OutOfMemory) => {
                state.next.errors = serial;
                Err(DomFault::Run(Fault::OutOfMemory))
            }
        }
    }

    /// The error that a boundary keeps goes, and its readers are marked, also where it kept none.
    /// Refused of a dom that isn't built or has failed, and for want of memory; all stays as it
    /// was. In dioxus-core `ErrorContext::clear_errors`.
    pub fn clear_errors(&mut self, c: ErrorContext) -> Result<(), DomFault>
        ensures cleared { Does (λ app. A.meaning app) (λ w. clear_error w c.scope.0)
            self.old self.new result }
        ensures refused { WantsBuilt WantsMemory self.old self.new result }
        ensures owned { Keeps self.old self.new }
        ensures kept { LeavesAll self.old self.new result }
    {
        self.leads();
        let alloc = self.machine.scopes.alloc;
        match self.stage {
            Stage::Failed => Err(DomFault::Failed),
            Stage::Fresh => Err(DomFault::NotBuilt),
            Stage::Built => match self.machine.scopes.state.clear_asked(alloc, c.scope.0) {
                Ok(()) => Ok(()),
                Err(OutOfMemory) => Err(DomFault::Run(Fault::OutOfMemory)),
            },
        }
    }
}
