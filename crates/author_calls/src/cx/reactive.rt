//! Reactive contexts: made, and read for.
ghost use Rattle.std.specs.Prelude.{◌≡◌, ◌↔◌, ◌++◌, ◌∷◌, [], IsTrue, IfOk, IfErr, OnOk, Err, true, false};
ghost use Rattle.rt_model.specs.Program.{faults, says, drew_context, noted_at, noted};
ghost use Rattle.rt_model.specs.World as model;
ghost use Rattle.rt_model.specs.World.{at_end};
ghost use Rattle.author_calls.specs.Calls.{call_of};
ghost use Rattle.run_records.specs.Records.{target_of, source_of};
ghost use Rattle.author_programs.specs.Contexts.{entered, left};
ghost use Rattle.author_calls.specs.Steps.{with_aside, WantedMemory, LostMemory, DrawsNone, IsTold};

use crate::cx::Cx;
use crate::entered::{last_entered, leave_last};
use rt_cells::{ReactiveContext, Source, Target};
use run_records::{Command, Counter, CxFault};
use tree_nodes::Parts;

impl<'a, P: Parts, K> Cx<'a, P, K> {
    /// Makes a reactive context of the caller's scope, which tells the target. Refused where
    /// contexts have no number left, and for want of memory; the turn keeps the first refusal as
    /// its fault, and nothing else changes. In dioxus-core `ReactiveContext::new_with_callback`,
    /// which takes a closure in the target's place, and `new`.
    #[tactic(auto, using(crate::proofs::Told::telling))]
    pub fn new_context(&mut self, target: Target) -> Result<ReactiveContext, CxFault>
        ensures value { IfOk result (λ context. context.0 ≡ self.old.next.contexts) }
        ensures call { OnOk result
            (call_of self.new ≡ drew_context (call_of self.old) (target_of target)) }
        ensures at_end { (result ≡ Err (CxFault.IdsExhausted Counter.Contexts))
            ↔ IsTrue (at_end self.old.next.contexts) }
        ensures fault { OnOk result (self.new.fault ≡ self.old.fault) }
        ensures err { IfErr result (DrawsNone Counter.Contexts self.old self.new) }
        ensures told { IfErr result (IsTold
            (faults (call_of self.old) (model.CounterAtEnd model.Contexts)) self.old self.new) }
        ensures world { self.new.world ≡ self.old.world }
    {
        let number = self.next.contexts;
        if number == u64::MAX {
            return Err(self.refuse(CxFault::IdsExhausted {
                what: Counter::Contexts,
            }));
        }
        let context = ReactiveContext(number);
        self.say(Command::NewContext { context, target })?;
        self.next.contexts = number + 1;
        Ok(context)
    }

    /// Lets reads go to a reactive context until `leave`. Refused for want of memory alone, which
    /// the turn keeps as its fault where it is the first; nothing else changes. In dioxus-core
    /// `ReactiveContext::run_in`, which takes a closure.
    #[tactic(auto, using(crate::proofs::Gathered::more))]
    pub fn run_in(&mut self, context: ReactiveContext) -> Result<(), CxFault>
        ensures call { OnOk result (call_of self.new ≡ entered (call_of self.old) context.0) }
        ensures fault { OnOk result (self.new.fault ≡ self.old.fault) }
        ensures err { IfErr result (WantedMemory self.old self.new) }
        ensures world { self.new.world ≡ self.old.world }
    {
        match self.into.push(context) {
            Ok(()) => Ok(()),
            Err(_) => Err(self.refuse(CxFault::OutOfMemory)),
        }
    }

    /// Lets reads go to a reactive context until `leave`, where the context has no source any more.
    /// Refused for want of memory alone, which the turn keeps as its fault where it is the first.
    /// In dioxus-core `ReactiveContext::reset_and_run_in`, which takes a closure.
    pub fn reset_and_run_in(&mut self, context: ReactiveContext) -> Result<(), CxFault>
        ensures call { OnOk result (call_of self.new
            ≡ says (entered (call_of self.old) context.0) (model.Reset context.0)) }
        ensures fault { OnOk result (self.new.fault ≡ self.old.fault) }
        ensures err { IfErr result (LostMemory self.old self.new) }
        ensures world { self.new.world ≡ self.old.world }
    {
        self.run_in(context)?;
        self.say(Command::Reset { context })
    }

    /// Ends the last `run_in`. dioxus-core has no such call: the closure ends there.
    pub fn leave(&mut self) -> Result<(), CxFault>
        ensures call { OnOk result (call_of self.new ≡ left (call_of self.old)) }
        ensures fault { OnOk result (self.new.fault ≡ self.old.fault) }
        ensures err { IfErr result (WantedMemory self.old self.new) }
        ensures world { self.new.world ≡ self.old.world }
    {
        leave_last(&mut self.into);
        Ok(())
    }

    /// Notes a read: of a body, or for the reactive context that reads go to.
    #[tactic(auto, using(crate::proofs::Gathered::noting))]
    pub(crate) fn note(&mut self, source: Source) -> Result<(), CxFault>
        ensures call { OnOk result
            (call_of self.new ≡ noted (call_of self.old) (source_of source)) }
        ensures fault { OnOk result (self.new.fault ≡ self.old.fault) }
        ensures err { IfErr result (LostMemory self.old self.new) }
        ensures world { self.new.world ≡ self.old.world }
    {
        match last_entered(&self.into) {
            Some(context) => self.note_into(context, source),
            None => self.note_here(source),
        }
    }

    /// Notes a read for a reactive context.
    #[tactic(auto, using(crate::proofs::Gathered::more))]
    fn note_into(&mut self, context: ReactiveContext, source: Source) -> Result<(), CxFault>
        ensures call { OnOk result (call_of self.new
            ≡ noted_at (call_of self.old) (source_of source) (context.0 ∷ []) true) }
        ensures fault { OnOk result (self.new.fault ≡ self.old.fault) }
        ensures err { IfErr result (LostMemory self.old self.new) }
        ensures world { self.new.world ≡ self.old.world }
    {
        self.note_aside(source)?;
        self.say(Command::ReadInto { context, source })
    }

    /// Notes a read of a body, or one of another call.
    #[tactic(auto, using(crate::proofs::Gathered::more))]
    fn note_here(&mut self, source: Source) -> Result<(), CxFault>
        ensures call { OnOk result (call_of self.new
            ≡ noted_at (call_of self.old) (source_of source) [] self.old.in_body) }
        ensures fault { OnOk result (self.new.fault ≡ self.old.fault) }
        ensures err { IfErr result (WantedMemory self.old self.new) }
        ensures world { self.new.world ≡ self.old.world }
    {
        if !self.in_body {
            return self.note_aside(source);
        }
        match self.reads.push(source) {
            Ok(()) => Ok(()),
            Err(_) => Err(self.refuse(CxFault::OutOfMemory)),
        }
    }

    /// Notes a read that no body is run again for.
    #[tactic(auto, using(crate::proofs::Gathered::more))]
    fn note_aside(&mut self, source: Source) -> Result<(), CxFault>
        ensures ok { OnOk result (self.new ≡ with_aside self.old source) }
        ensures call { OnOk result (call_of self.new
            ≡ noted_at (call_of self.old) (source_of source) [] false) }
        ensures fault { OnOk result (self.new.fault ≡ self.old.fault) }
        ensures err { IfErr result (WantedMemory self.old self.new) }
        ensures world { self.new.world ≡ self.old.world }
    {
        match self.aside.push(source) {
            Ok(()) => Ok(()),
            Err(_) => Err(self.refuse(CxFault::OutOfMemory)),
        }
    }
}
