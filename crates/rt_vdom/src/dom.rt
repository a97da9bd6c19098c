//! A runtime that a program keeps: it is made, built once, and then called.
//!
//! A dom is fresh until it is built. Where a call that builds, renders, polls, handles, writes or
//! cancels comes to a fault other than spent units, the dom has failed, and each later call says so.
ghost use Rattle.std.specs.Prelude.{◌≡◌, ℕ, Some, List};
ghost use Rattle.run_outside.specs.Ends.{Explains, fault_in};
ghost use Rattle.run_outside.specs.Short.{PartBy};
ghost use Rattle.rt_model.specs.Document as document;
ghost use Rattle.rt_model.specs.State as model;
ghost use Rattle.rt_vdom.specs.Calls.{CausesAt, FailsAt, PartIn, Ran, ran_fault, spent_in};
ghost use Rattle.law_behavior.specs.Doms.{AsidesLead};
ghost use Rattle.run_reports.specs.Seen.{limits_of};
ghost use Rattle.run_reports.specs.declared.fault.Fault.TheVariants as faults;
ghost use Rattle.run_answers.specs.declared.refusal.DomFault.TheVariants as refusals;

use author_calls::{App, Calls};
use law_behavior::asides_lead;
use run_answers::{DomFault, Stage, failed_unless};
use run_machine::Machine;
use run_outside::Ended;
use run_reports::{Fault, Limits};

/// A runtime over an application, between two calls.
#[derive(Drop)]
pub struct VirtualDom<A: App> {
    pub(crate) app: A,
    pub(crate) calls: Calls,
    pub(crate) machine: Machine<A>,
    pub(crate) limits: Limits,
    pub(crate) stage: Stage,
}

impl<A: App> VirtualDom<A> {
    /// A call that logs no entry leads on, by the laws of a program's calls.
    pub(crate) fn leads(&self)
        ensures { (props : _) (whole : _) →
            AsidesLead (A.meaning self.now.app) (limits_of self.now.limits) props whole }
    {
        asides_lead::<
            A::Component,
            A::Props,
            A::Value,
            A::Handler,
            A::TaskState,
            A::Effect,
            A::Payload,
        >();
    }

    /// What ends a call that takes units. The dom has failed, unless units are spent: what is owed
    /// then stays, and a later call goes on.
    pub(crate) fn ended(&mut self, ended: Ended) -> DomFault
        ensures ran { Ran result }
        ensures of { ran_fault result ≡ fault_in ended }
        ensures causes { (before after : ℕ) → Explains self.old.limits before after ended →
            CausesAt self.old.limits before after result }
        ensures parts { (taken edits : List document.Edit) → PartBy ended taken edits →
            PartIn result taken edits }
        ensures fails { self.old.stage ≡ Stage.Built → FailsAt self.new result }
        ensures others { self.new ≡ record self.old { stage = self.new.stage } }
        ensures spent { (units : ℕ) → fault_in ended ≡ Some (model.OutOfTurns units) →
            self.new ≡ self.old }
    {
        self.stage = failed_unless(self.stage, is_spent(ended));
        DomFault::Run(ended.fault())
    }

    /// Memory was wanting in a call after which nothing else can be said: the dom has failed.
    pub(crate) fn out_of_memory(&mut self) -> DomFault
        ensures fault { result ≡ refusals.Run faults.OutOfMemory }
        ensures failed { self.new ≡ record self.old { stage = Stage.Failed } }
    {
        self.stage = Stage::Failed;
        DomFault::Run(Fault::OutOfMemory)
    }
}

/// Whether units were spent.
fn is_spent(ended: Ended) -> bool
    ensures { result ≡ spent_in (fault_in ended) }
{
    match ended {
        Ended::OutOfTurns { .. } => true,
        Ended::Sink => false,
        Ended::TooDeep { .. } => false,
        Ended::Run(_stop) => false,
    }
}
