//! Calls that take unit after unit.
ghost use Rattle.std.specs.Prelude.{◌≡◌, ◌≤◌, None, IfOk, IfErr, OnOk};
ghost use Rattle.run_reports.specs.Counted.{CountsLog};
ghost use Rattle.law_behavior.specs.Doms.{Events, Renders, Settles};
ghost use Rattle.run_answers.specs.Untils.{until_of};
ghost use Rattle.rt_vdom.specs.Calls.{CausesAt, Does, FailsOn, Keeps, Ran, WantsBuilt, WantsMemory};
ghost use Rattle.rt_vdom.specs.Handles.{Works, taken_in};
ghost use Rattle.rt_vdom.specs.Runs.{RendersToList, Runs, RunsOnce, Settled};

use crate::dom::VirtualDom;
use author_calls::App;
use rt_edits::{Mutations, NoOpMutations, WriteMutations};
use rt_inbox::Drained;
use rt_values::OutOfMemory;
use run_answers::{DomFault, Stage, Until, waits};
use run_outside::post_messages;
use run_reports::{Poll, Report};
use run_rounds::run_report;

impl<A: App> VirtualDom<A> {
    /// A look; then polls while no scope is seen, and where no task is queued a batch of effects.
    /// No scope is run. Refused of a dom that isn't built or has failed, which stays as it was.
    /// After a fault it has failed, unless units were spent: what is owed then stays, and a later
    /// call goes on. In dioxus-core `VirtualDom::process_events`, which answers nothing.
    pub fn process_events(&mut self) -> Result<Report, DomFault>
        ensures runs { Runs (λ app. A.meaning app) Events None None
            self.old self.new result }
        ensures counts { IfOk result (λ report. CountsLog report) }
        ensures refused { WantsBuilt Ran self.old self.new result }
        ensures owned { Keeps self.old self.new }
        ensures fails { FailsOn self.new result }
        ensures caused { IfErr result (λ fault.
            CausesAt self.old.limits 0 0 fault) }
    {
        let mut to = NoOpMutations;
        self.run(Until::Events, &mut to)
    }

    /// Does what `process_events` does, and then work until no scope is seen and no task is queued.
    /// Refused of a dom that isn't built or has failed, which stays as it was. After a fault it has
    /// failed, unless units were spent: what is owed then stays, and a later call goes on. In
    /// dioxus-core `VirtualDom::render_immediate`, which answers nothing.
    pub fn render_immediate<M: WriteMutations>(&mut self, to: &mut M) -> Result<Report, DomFault>
        ensures runs { Runs (λ app. A.meaning app) Renders (M.taken to.old) (M.taken to.new)
            self.old self.new result }
        ensures once { RunsOnce (λ app. A.meaning app) self.old self.new result }
        ensures counts { IfOk result (λ report. CountsLog report) }
        ensures refused { WantsBuilt Ran self.old self.new result }
        ensures owned { Keeps self.old self.new }
        ensures fails { FailsOn self.new result }
        ensures caused { IfErr result (λ fault.
            CausesAt self.old.limits (M.faults to.old) (M.faults to.new) fault) }
        ensures counted { M.faults to.old ≤ M.faults to.new }
    {
        self.run(Until::Renders, to)
    }

    /// What `render_immediate` writes, as a list. Refused of a dom that isn't built or has failed,
    /// which stays as it was. After a fault it has failed, unless units were spent: what is owed
    /// then stays, and a later call goes on. In dioxus-core `VirtualDom::render_immediate_to_vec`.
    pub fn render_immediate_to_vec(&mut self) -> Result<Mutations, DomFault>
        ensures runs { RendersToList (λ app. A.meaning app)
            (λ to. ⟦<Mutations as WriteMutations>⟧.taken to) self.old self.new result }
        ensures refused { WantsBuilt Ran self.old self.new result }
        ensures owned { Keeps self.old self.new }
        ensures fails { FailsOn self.new result }
        ensures caused { IfErr result (λ fault. CausesAt self.old.limits 0 0 fault) }
    {
        let mut to = Mutations::default_list(self.machine.scopes.alloc);
        self.render_immediate(&mut to)?;
        Ok(to)
    }

    /// Work until nothing is owed. Refused of a dom that isn't built or has failed, which stays as
    /// it was. After a fault it has failed, unless units were spent: what is owed then stays, and a
    /// later call goes on. dioxus-core has no such call: the caller loops over `wait_for_work` and
    /// `render_immediate` there.
    pub fn settle<M: WriteMutations>(&mut self, to: &mut M) -> Result<Report, DomFault>
        ensures runs { Runs (λ app. A.meaning app) Settles (M.taken to.old) (M.taken to.new)
            self.old self.new result }
        ensures settled { Settled (λ app. A.meaning app) self.old self.new result }
        ensures counts { IfOk result (λ report. CountsLog report) }
        ensures refused { WantsBuilt Ran self.old self.new result }
        ensures owned { Keeps self.old self.new }
        ensures fails { FailsOn self.new result }
        ensures caused { IfErr result (λ fault.
            CausesAt self.old.limits (M.faults to.old) (M.faults to.new) fault) }
        ensures counted { M.faults to.old ≤ M.faults to.new }
    {
        self.run(Until::Settles, to)
    }

    /// Takes messages in, and processes events. Pending where no scope is seen then and no message
    /// was left to drain. Refused of a dom that isn't built or has failed, which stays as it was.
    /// After a fault it has failed, unless units were spent: what is owed then stays, and a later
    /// call goes on. In dioxus-core `VirtualDom::wait_for_work`, which waits.
    pub fn poll_work(&mut self, drained: &Drained) -> Result<Poll<()>, DomFault>
        ensures works { Works (λ app. A.meaning app) drained.now self.old self.new result }
        ensures refused { WantsBuilt Ran self.old self.new result }
        ensures owned { Keeps self.old self.new }
        ensures fails { FailsOn self.new result }
        ensures caused { IfErr result (λ fault. CausesAt self.old.limits 0 0 fault) }
    {
        match self.stage {
            Stage::Failed => Err(DomFault::Failed),
            Stage::Fresh => Err(DomFault::NotBuilt),
            Stage::Built => {
                self.take_messages(drained)?;
                let mut nowhere = NoOpMutations;
                self.go_on(Until::Events, &mut nowhere)?;
                Ok(waits(&self.machine.scopes.state, drained.emptied))
            }
        }
    }

    /// Does what messages ask for, in order.
    pub(crate) fn take_messages(&mut self, drained: &Drained) -> Result<(), DomFault>
        ensures taken { Does (λ app. A.meaning app) (λ w. taken_in w drained.now)
            self.old self.new result }
        ensures staged { OnOk result (self.new.stage ≡ self.old.stage) }
        ensures refused { IfErr result (λ fault. WantsMemory fault) }
        ensures owned { Keeps self.old self.new }
        ensures fails { FailsOn self.new result }
    {
        self.leads();
        match post_messages(&mut self.machine.scopes.state, drained.messages.as_slice()) {
            Ok(()) => Ok(()),
            Err(OutOfMemory) => Err(self.out_of_memory()),
        }
    }

    /// Takes unit after unit, up to where the call ends.
    fn run<M: WriteMutations>(&mut self, until: Until, to: &mut M) -> Result<Report, DomFault>
        ensures runs { Runs (λ app. A.meaning app) (until_of until) (M.taken to.old) (M.taken to.new)
            self.old self.new result }
        ensures counts { IfOk result (λ report. CountsLog report) }
        ensures refused { WantsBuilt Ran self.old self.new result }
        ensures owned { Keeps self.old self.new }
        ensures fails { FailsOn self.new result }
        ensures caused { IfErr result (λ fault.
            CausesAt self.old.limits (M.faults to.old) (M.faults to.new) fault) }
        ensures counted { M.faults to.old ≤ M.faults to.new }
    {
        match self.stage {
            Stage::Failed => Err(DomFault::Failed),
            Stage::Fresh => Err(DomFault::NotBuilt),
            Stage::Built => self.go_on(until, to),
        }
    }

    /// Takes unit after unit of a built dom.
    fn go_on<M: WriteMutations>(&mut self, until: Until, to: &mut M) -> Result<Report, DomFault>
        ensures runs { Runs (λ app. A.meaning app) (until_of until) (M.taken to.old) (M.taken to.new)
            self.old self.new result }
        ensures counts { IfOk result (λ report. CountsLog report) }
        ensures refused { IfErr result (λ fault. Ran fault) }
        ensures owned { Keeps self.old self.new }
        ensures fails { self.old.stage ≡ Stage.Built → FailsOn self.new result }
        ensures caused { IfErr result (λ fault.
            CausesAt self.old.limits (M.faults to.old) (M.faults to.new) fault) }
        ensures counted { M.faults to.old ≤ M.faults to.new }
    {
        match run_report(
            &mut self.machine,
            &self.app,
            &mut self.calls,
            until,
            self.limits,
            to,
        ) {
            Ok(report) => Ok(report),
            Err(ended) => Err(self.ended(ended)),
        }
    }
}
