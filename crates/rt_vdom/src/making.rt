//! A dom is made, built and closed.
ghost use Rattle.std.specs.Prelude.{◌≡◌, ◌≤◌, [], None, Some, Ok, IfOk, IfErr};
ghost use Rattle.run_records.specs.Records.{firsts_of};
ghost use Rattle.rt_model.specs.Replay.{ones};
ghost use Rattle.run_reports.specs.Counted.{CountsLog};
ghost use Rattle.run_reports.specs.declared.fault.Fault.TheVariants as faults;
ghost use Rattle.run_outside.specs.Ends.{Causes};
ghost use Rattle.rt_vdom.specs.Calls.{CausesAt, Closes, FailsAll, Keeps, Ran, WantsFresh, as_run};
ghost use Rattle.rt_vdom.specs.Doms.{IsStarted};
ghost use Rattle.rt_vdom.specs.Runs.{Builds, BuildsToList, Prebuilt, PrebuiltStopped};

use crate::dom::VirtualDom;
use author_calls::{App, Calls};
use rt_edits::{Mutations, NoOpMutations, WriteMutations};
use run_answers::{DomFault, Stage};
use run_machine::Machine;
use run_outside::Ended;
use run_records::Firsts;
use run_reports::{Fault, Limits, Report};
use run_rounds::{build_report, close};
use std::alloc::Global;

impl<A: App> VirtualDom<A> {
    /// A dom that isn't built yet, of the application's root with the props that it has where none
    /// are handed in. Refused for want of memory alone. In dioxus-core `VirtualDom::new`.
    pub fn new(alloc: Global, app: A, limits: Limits) -> Result<VirtualDom<A>, Fault>
        ensures started { IfOk result (λ dom.
            IsStarted (λ app. A.meaning app) app (A.props_of_none app) ones [] limits dom) }
        ensures cause { IfErr result (λ fault. fault ≡ faults.OutOfMemory) }
    {
        let props = app.empty_props(alloc)?;
        VirtualDom::new_with_props(alloc, app, props, limits)
    }

    /// A dom that isn't built yet, of the application's root with these props. Refused for want of
    /// memory alone. In dioxus-core `VirtualDom::new_with_props`.
    pub fn new_with_props(
        alloc: Global,
        app: A,
        props: A::Props,
        limits: Limits,
    ) -> Result<VirtualDom<A>, Fault>
        ensures started { IfOk result (λ dom.
            IsStarted (λ app. A.meaning app) app props ones [] limits dom) }
        ensures cause { IfErr result (λ fault. fault ≡ faults.OutOfMemory) }
    {
        let (machine, calls) = Machine::start(alloc, &app, props)?;
        Ok(VirtualDom {
            app,
            calls,
            machine,
            limits,
            stage: Stage::Fresh,
        })
    }

    /// A dom that isn't built yet, whose counters begin at these numbers. Refused for want of
    /// memory alone. dioxus-core has no such call: its arenas number by themselves.
    pub fn new_from(
        alloc: Global,
        app: A,
        props: A::Props,
        limits: Limits,
        firsts: Firsts,
    ) -> Result<VirtualDom<A>, Fault>
        ensures started { IfOk result (λ dom.
            IsStarted (λ app. A.meaning app) app props (firsts_of firsts) [] limits dom) }
        ensures cause { IfErr result (λ fault. fault ≡ faults.OutOfMemory) }
    {
        let (machine, calls) = Machine::start_from(alloc, &app, props, firsts)?;
        Ok(VirtualDom {
            app,
            calls,
            machine,
            limits,
            stage: Stage::Fresh,
        })
    }

    /// A dom that is built, of the application's root with the props that it has where none are
    /// handed in. What it writes goes nowhere. Refused where the build is; no dom is left then. In
    /// dioxus-core `VirtualDom::prebuilt`.
    pub fn prebuilt(alloc: Global, app: A, limits: Limits) -> Result<VirtualDom<A>, Fault>
        ensures built { IfOk result (λ dom.
            Prebuilt (λ app. A.meaning app) app (A.props_of_none app) limits dom) }
        ensures stopped { IfErr result (λ what.
            PrebuiltStopped (λ app. A.meaning app) app limits (A.props_of_none app) what) }
        ensures cause { IfErr result (λ fault. Causes limits 0 0 fault) }
    {
        let mut dom = VirtualDom::new(alloc, app, limits)?;
        let mut to = NoOpMutations;
        let _report = dom.build(&mut to)?;
        Ok(dom)
    }

    /// Runs the root and all below it, and writes what shows. Nothing is polled. Refused of a dom
    /// that is built or has failed, which stays as it was; after a fault of the run it has failed.
    /// In dioxus-core `VirtualDom::rebuild`, which answers nothing.
    pub fn rebuild<M: WriteMutations>(&mut self, to: &mut M) -> Result<Report, DomFault>
        ensures builds { Builds (λ app. A.meaning app) (M.taken to.old) (M.taken to.new)
            self.old self.new result }
        ensures counts { IfOk result (λ report. CountsLog report) }
        ensures refused { WantsFresh Ran self.old self.new result }
        ensures owned { Keeps self.old self.new }
        ensures fails { FailsAll self.new result }
        ensures caused { IfErr result (λ fault.
            CausesAt self.old.limits (M.faults to.old) (M.faults to.new) fault) }
        ensures counted { M.faults to.old ≤ M.faults to.new }
    {
        match self.stage {
            Stage::Failed => Err(DomFault::Failed),
            Stage::Built => Err(DomFault::AlreadyBuilt),
            Stage::Fresh => match self.build(to) {
                Ok(report) => Ok(report),
                Err(fault) => Err(DomFault::Run(fault)),
            },
        }
    }

    /// The build of a fresh dom.
    fn build<M: WriteMutations>(&mut self, to: &mut M) -> Result<Report, Fault>
        ensures builds { Builds (λ app. A.meaning app) (M.taken to.old) (M.taken to.new)
            self.old self.new (as_run result) }
        ensures counts { IfOk result (λ report. CountsLog report) }
        ensures owned { Keeps self.old self.new }
        ensures fails { IfErr result (λ _. self.new.stage ≡ Stage.Failed) }
        ensures caused { IfErr result (λ fault.
            Causes self.old.limits (M.faults to.old) (M.faults to.new) fault) }
        ensures counted { M.faults to.old ≤ M.faults to.new }
    {
        match build_report(
            &mut self.machine,
            &self.app,
            &mut self.calls,
            self.limits,
            to,
        ) {
            Ok(report) => {
                self.stage = Stage::Built;
                Ok(report)
            }
            Err(ended) => {
                self.stage = Stage::Failed;
                Err(ended.fault())
            }
        }
    }

    /// Builds as `rebuild` does; what it writes goes nowhere. Refused of a dom that is built or has
    /// failed, which stays as it was; after a fault of the run it has failed. In dioxus-core
    /// `VirtualDom::rebuild_in_place`.
    pub fn rebuild_in_place(&mut self) -> Result<Report, DomFault>
        ensures builds { Builds (λ app. A.meaning app) None None self.old self.new result }
        ensures counts { IfOk result (λ report. CountsLog report) }
        ensures refused { WantsFresh Ran self.old self.new result }
        ensures owned { Keeps self.old self.new }
        ensures fails { FailsAll self.new result }
        ensures caused { IfErr result (λ fault. CausesAt self.old.limits 0 0 fault) }
    {
        let mut to = NoOpMutations;
        self.rebuild(&mut to)
    }

    /// Builds as `rebuild` does, and answers what it writes. Refused of a dom that is built or has
    /// failed, which stays as it was; after a fault of the run it has failed. In dioxus-core
    /// `VirtualDom::rebuild_to_vec`.
    pub fn rebuild_to_vec(&mut self) -> Result<Mutations, DomFault>
        ensures builds { BuildsToList (λ app. A.meaning app)
            (λ to. ⟦<Mutations as WriteMutations>⟧.taken to) self.old self.new result }
        ensures refused { WantsFresh Ran self.old self.new result }
        ensures owned { Keeps self.old self.new }
        ensures fails { FailsAll self.new result }
        ensures caused { IfErr result (λ fault. CausesAt self.old.limits 0 0 fault) }
    {
        let mut to = Mutations::default_list(self.machine.scopes.alloc);
        self.rebuild(&mut to)?;
        Ok(to)
    }

    /// Removes all scopes, from the greatest order down, with their clean-ups. Of a dom that has
    /// failed no clean-up is called. The application. A fault of a clean-up, and want of memory,
    /// drop all that is left. In dioxus-core the drop of a dom calls the clean-ups.
    pub fn close(self) -> Result<A, Fault>
        ensures handed { IfOk result (λ app. app ≡ self.app) }
        ensures failed { self.stage ≡ Stage.Failed → result ≡ Ok self.app }
        ensures closed { Closes (λ app. A.meaning app) self result }
        ensures caused { IfErr result (λ fault. Causes self.limits 0 0 fault) }
    {
        let VirtualDom {
            app,
            calls,
            machine,
            limits: _,
            stage,
        } = self;
        let mut calls = calls;
        let mut machine = machine;
        close_all(&mut machine, app, &mut calls, stage)
    }
}

/// Closes a dom by its parts.
fn close_all<A: App>(
    machine: &mut Machine<A>,
    app: A,
    calls: &mut Calls,
    stage: Stage,
) -> Result<A, Fault>
    ensures handed { IfOk result (λ handed. handed ≡ app) }
    ensures failed { stage ≡ Stage.Failed → result ≡ Ok app }
    ensures closed { (limits : _) → Closes (λ app. A.meaning app) (record {
      app = app;
      calls = calls.old;
      machine = machine.old;
      limits = limits;
      stage = stage;
    })
        result }
    ensures caused { (limits : _) → IfErr result (λ fault. Causes limits 0 0 fault) }
{
    match stage {
        Stage::Failed => Ok(app),
        _ => match close(machine, &app, calls) {
            Ok(()) => Ok(app),
            Err(stop) => Err(Ended::Run(stop).fault()),
        },
    }
}
